//! The command `rebound`: both files are read, the new certificate is made and written, and the report is said. The
//! certificate may be of any kind.
ghost use Rattle.std.specs.Prelude.{◌≡◌, ◌≤◌, ℕ, List, IfOk, IfErr, OnOk};
ghost use Rattle.instance_model.specs.Limits.{standard_limits};
ghost use Rattle.instance_shape.specs.Ranges.{AreStandard};
ghost use Rattle.plan_desk.specs.Contents.{OnlyReads};
ghost use Rattle.command_frame.specs.Sources.{source_view};
ghost use Rattle.command_frame.specs.Files.{reading};
ghost use Rattle.command_frame.specs.Refusals.{CountsRefusal, IsDueAs};
ghost use Rattle.command_rebound.specs.Rebinding.{AnswersReboundBy, RunsReboundBy, RunsRebound};
ghost use Rattle.command_rebound.specs.Made.{AreRead, IsMade, TellsNew, TellsRebound};

use crate::making::{Made, make};
use band_rebound::ReboundTree;
use certificate_text::Certificate;
use command_frame::{
    FileCertificate, MEMORY_LINE, Refusal, Source, Text, WRITE_WORDS, certificate_of, instance_of,
    put_certificate, refuse, refuse_long, say, say_numbered,
};
use instance_model::{Instance, Limits};
use plan_desk::Desk;
use std::alloc::Global;

/// What was read.
#[derive(Drop)]
struct Files<C> {
    inst: Instance,
    cert: C,
}

/// Reads the instance, then the certificate of version 1 or 2, writes what that becomes to the file of this name, and
/// says the report.
///
/// The instance file is word 2, the certificate word 3, and the file that is written word 4. No memory is taken once it
/// is opened.
pub fn rebound_files<D: Desk>(
    alloc: Global,
    limits: &Limits,
    source: &Source<'_>,
    certificate: &str,
    out: &str,
    desk: &mut D,
) -> u8
    requires standard { AreStandard limits.now }
    requires bytes { limits.now.certificate_bytes ≤ standard_limits.certificate_bytes }
    requires small { source.now.slack ≤ 1_000_000_000 }
    ensures { RunsRebound limits.now (source_view source.now) certificate.now out.now
        (D.shows desk.old) (D.shows desk.new) result }
{
    rebound_files_by::<Certificate, D>(alloc, limits, source, certificate, out, desk)
}

/// The same for a certificate of this kind.
pub fn rebound_files_by<C: FileCertificate, D: Desk>(
    alloc: Global,
    limits: &Limits,
    source: &Source<'_>,
    certificate: &str,
    out: &str,
    desk: &mut D,
) -> u8
    requires standard { AreStandard limits.now }
    requires bytes { limits.now.certificate_bytes ≤ standard_limits.certificate_bytes }
    requires small { source.now.slack ≤ 1_000_000_000 }
    ensures { RunsReboundBy C.kind limits.now (source_view source.now) certificate.now out.now
        (D.shows desk.old) (D.shows desk.new) result }
{
    match read_files::<C, D>(alloc, limits, source, certificate, desk) {
        Ok(files) => rebound_read(alloc, limits, files, out, desk),
        Err(refusal) => refuse(alloc, desk, &refusal),
    }
}

/// Reads the instance, then the certificate.
fn read_files<C: FileCertificate, D: Desk>(
    alloc: Global,
    limits: &Limits,
    source: &Source<'_>,
    certificate: &str,
    desk: &mut D,
) -> Result<Files<C>, Refusal>
    requires standard { AreStandard limits.now }
    requires small { source.now.slack ≤ 1_000_000_000 }
    ensures ok { IfOk result (λ files. AreRead C.kind limits.now (source_view source.now) certificate.now
        (D.shows desk.old) files.inst files.cert) }
    ensures err { IfErr result (λ refusal. (out : List ℕ) → IsDueAs
        (AnswersReboundBy C.kind limits.now (reading (D.shows desk.old) (D.shows desk.new)) source.now.slack
        source.now.instance.now certificate.now out) refusal) }
    ensures faults { OnOk result ((D.shows desk.new).faults ≡ (D.shows desk.old).faults) }
    ensures kept { IfErr result (CountsRefusal (D.shows desk.old) (D.shows desk.new)) }
    ensures only_reads { OnlyReads (D.shows desk.old) (D.shows desk.new) }
{
    let inst = instance_of(alloc, limits, 2, source, desk)?;
    let cert: C = certificate_of(alloc, limits, &inst, 3, certificate, desk)?;
    Ok(Files { inst, cert })
}

/// Makes what the certificate becomes, and tells it.
fn rebound_read<C: FileCertificate, D: Desk>(
    alloc: Global,
    limits: &Limits,
    files: Files<C>,
    out: &str,
    desk: &mut D,
) -> u8
    requires bytes { limits.now.certificate_bytes ≤ standard_limits.certificate_bytes }
    requires in_range { C.kind.range files.inst files.cert }
    ensures { TellsRebound C.kind limits.now files.inst files.cert out.now (D.shows desk.old) (D.shows desk.new)
        result }
{
    match make(alloc, &files.inst, &files.cert) {
        Ok(made) => tell(limits, files, made, out, desk),
        Err(_) => say(desk, 11, MEMORY_LINE.as_bytes()),
    }
}

/// Puts the new certificate together, and tells it. Takes no memory.
fn tell<C: FileCertificate, D: Desk>(
    limits: &Limits,
    files: Files<C>,
    made: Made,
    out: &str,
    desk: &mut D,
) -> u8
    requires bytes { limits.now.certificate_bytes ≤ standard_limits.certificate_bytes }
    requires made { IsMade C.kind files.inst files.cert made }
    ensures { TellsRebound C.kind limits.now files.inst files.cert out.now (D.shows desk.old) (D.shows desk.new)
        result }
{
    let Files { inst, cert } = files;
    let Made { tree, report } = made;
    let ReboundTree { bound, nodes, .. } = tree;
    let cert = cert.remade(bound, nodes);
    tell_new(limits, &inst, &cert, &report, out, desk)
}

/// Refuses a text that is too long, or writes it and says the report. Takes no memory.
fn tell_new<C: FileCertificate, D: Desk>(
    limits: &Limits,
    inst: &Instance,
    cert: &C,
    report: &Text,
    out: &str,
    desk: &mut D,
) -> u8
    requires bytes { limits.now.certificate_bytes ≤ standard_limits.certificate_bytes }
    requires in_range { C.kind.range inst.now cert.now }
    ensures { TellsNew C.kind limits.now inst.now cert.now out.now report.now (D.shows desk.old) (D.shows desk.new)
        result }
{
    if limits.certificate_bytes < cert.text_length(inst) {
        return refuse_long(desk, 4);
    }
    match put_certificate(inst, cert, out, desk) {
        Ok(()) => say(desk, 0, report.as_slice()),
        Err(_) => say_numbered(desk, 8, WRITE_WORDS, 4),
    }
}
