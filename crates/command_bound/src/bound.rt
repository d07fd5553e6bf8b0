//! The command `bound`: the files are read, a certificate is made and written, and the report is said.
ghost use Rattle.std.specs.Prelude.{◌≡◌, ◌<◌, ◌≤◌, ℕ, List, option_copied, IfSome, IfOk, IfErr, OnOk, length};
ghost use Rattle.instance_model.specs.Limits.{standard_limits};
ghost use Rattle.instance_shape.specs.Ranges.{AreStandard};
ghost use Rattle.plan_desk.specs.Contents.{OnlyReads};
ghost use Rattle.branch_search.specs.declared.part.Part.{Part};
ghost use Rattle.refined_check.specs.certificate.Ranges.{IsRefinedInRange};
ghost use Rattle.command_frame.specs.Sources.{source_view};
ghost use Rattle.command_frame.specs.Files.{reading};
ghost use Rattle.command_frame.specs.Refusals.{CountsRefusal, IsDueAs};
ghost use Rattle.command_bound.specs.Bounding.{AnswersBound, RunsBound};
ghost use Rattle.command_bound.specs.Made.{AreRead, IsMade, TellsBound};

use crate::given::given_certificate_of;
use crate::making::{Made, make};
use branch_search::Part;
use command_frame::{
    FileCertificate, MEMORY_LINE, Refusal, Source, WRITE_WORDS, given_plan_of, instance_of,
    put_certificate, refuse, refuse_long, say, say_numbered,
};
use instance_model::{Instance, Limits};
use plan_desk::Desk;
use plan_text::Plan;
use refined_files::VersionedCertificate;
use refined_search::Raised;
use std::alloc::Global;

/// What was read.
#[derive(Drop)]
struct Files {
    inst: Instance,
    plan: Option<Plan>,
    cert: Option<VersionedCertificate>,
}

/// Reads the instance, then the plan if one is given, then the certificate of any version if one is. Makes a certificate
/// by refined price lists with so many turns for the leaves of this part of its tree, writes it to the file of this
/// name, and says the report.
///
/// The instance file is word 2, the plan word 3, the certificate word 4, and the file that is written word 5. No memory
/// is taken once it is opened.
pub fn bound_files<D: Desk>(
    alloc: Global,
    limits: &Limits,
    source: &Source<'_>,
    plan: Option<&str>,
    certificate: Option<&str>,
    out: &str,
    turns: u32,
    part: Part,
    desk: &mut D,
) -> u8
    requires standard { AreStandard limits.now }
    requires bytes { limits.now.certificate_bytes ≤ standard_limits.certificate_bytes }
    requires small { source.now.slack ≤ 1_000_000_000 }
    requires part { part.number < part.count }
    ensures { RunsBound limits.now (source_view source.now) (option_copied plan.entry)
        (option_copied certificate.entry) out.now turns part (D.shows desk.old) (D.shows desk.new) result }
{
    match read_files(alloc, limits, source, plan, certificate, desk) {
        Ok(files) => bound_read(alloc, limits, &files, out, turns, part, desk),
        Err(refusal) => refuse(alloc, desk, &refusal),
    }
}

/// Reads the instance, then the plan if one is given, then the certificate if one is.
fn read_files<D: Desk>(
    alloc: Global,
    limits: &Limits,
    source: &Source<'_>,
    plan: Option<&str>,
    certificate: Option<&str>,
    desk: &mut D,
) -> Result<Files, Refusal>
    requires standard { AreStandard limits.now }
    requires small { source.now.slack ≤ 1_000_000_000 }
    ensures ok { IfOk result (λ files. AreRead limits.now (source_view source.now) (option_copied plan.entry)
        (option_copied certificate.entry) (D.shows desk.old) files.inst files.plan files.cert) }
    ensures err { IfErr result (λ refusal. (out : List ℕ) (turns : ℕ) (part : Part) → IsDueAs
        (AnswersBound limits.now (reading (D.shows desk.old) (D.shows desk.new)) source.now.slack
        source.now.instance.now (option_copied plan.entry) (option_copied certificate.entry) out turns part) refusal) }
    ensures faults { OnOk result ((D.shows desk.new).faults ≡ (D.shows desk.old).faults) }
    ensures kept { IfErr result (CountsRefusal (D.shows desk.old) (D.shows desk.new)) }
    ensures only_reads { OnlyReads (D.shows desk.old) (D.shows desk.new) }
{
    let inst = instance_of(alloc, limits, 2, source, desk)?;
    let plan = given_plan_of(alloc, limits, &inst, 3, plan, desk)?;
    let cert = given_certificate_of(alloc, limits, &inst, 4, certificate, desk)?;
    Ok(Files { inst, plan, cert })
}

/// Makes a certificate, and tells it.
fn bound_read<D: Desk>(
    alloc: Global,
    limits: &Limits,
    files: &Files,
    out: &str,
    turns: u32,
    part: Part,
    desk: &mut D,
) -> u8
    requires bytes { limits.now.certificate_bytes ≤ standard_limits.certificate_bytes }
    requires plan { IfSome files.now.plan (λ p. length p ≡ length files.now.inst.names) }
    requires cert { IfSome files.now.cert (IsRefinedInRange files.now.inst) }
    requires part { part.number < part.count }
    ensures { TellsBound limits.now files.now.inst files.now.plan out.now turns part files.now.cert (D.shows desk.old)
        (D.shows desk.new) result }
{
    match make(
        alloc,
        limits,
        &files.inst,
        &files.plan,
        &files.cert,
        turns,
        part,
    ) {
        Ok(made) => tell(limits, files, made, out, turns, part, desk),
        Err(_) => say(desk, 11, MEMORY_LINE.as_bytes()),
    }
}

/// Refuses a text that is too long, or writes it and says the report. Takes no memory.
fn tell<D: Desk>(
    limits: &Limits,
    files: &Files,
    made: Made,
    out: &str,
    turns: u32,
    part: Part,
    desk: &mut D,
) -> u8
    requires bytes { limits.now.certificate_bytes ≤ standard_limits.certificate_bytes }
    requires made { IsMade limits.now files.now.inst files.now.plan files.now.cert turns part made }
    ensures { TellsBound limits.now files.now.inst files.now.plan out.now turns part files.now.cert (D.shows desk.old)
        (D.shows desk.new) result }
{
    let Made { raised, report } = made;
    let Raised { cert, .. } = raised;
    let cert = VersionedCertificate::from_refined(cert);
    if limits.certificate_bytes < cert.text_length(&files.inst) {
        return refuse_long(desk, 5);
    }
    match put_certificate(&files.inst, &cert, out, desk) {
        Ok(()) => say(desk, report.status, report.text.as_slice()),
        Err(_) => say_numbered(desk, 8, WRITE_WORDS, 5),
    }
}
