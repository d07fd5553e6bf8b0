//! The command `check`: all files are read, the plan is judged if one is given, the certificate is checked, and the
//! report is said. The certificate may be of any kind.
ghost use Rattle.std.specs.Prelude.{◌≡◌, ◌<◌, ◌≤◌, ◌^◌, length, option_copied, Some, IfSome, IfOk, IfErr, OnOk};
ghost use Rattle.std.specs.Prelude.{unsigned_abs};
ghost use Rattle.instance_model.specs.Limits.{standard_limits};
ghost use Rattle.instance_shape.specs.Ranges.{AreStandard};
ghost use Rattle.plan_desk.specs.Contents.{OnlyReads};
ghost use Rattle.command_frame.specs.Sources.{source_view};
ghost use Rattle.command_frame.specs.Ending.{reply};
ghost use Rattle.command_frame.specs.Files.{reading};
ghost use Rattle.command_check.specs.Checking.{RunsCheckBy, RunsCheck};
ghost use Rattle.command_answers.specs.Check.{ChecksBy, AnswersCheckBy};
ghost use Rattle.command_frame.specs.Refusals.{IsDueAs, CountsRefusal};
ghost use Rattle.command_check.specs.Standing.{StandsAs, ChecksFor};

use crate::verdict::verdict_of;
use certificate_check::CertVerdict;
use certificate_text::Certificate;
use command_frame::{
    FileCertificate, Refusal, Report, Source, accepted_text, certificate_of, given_plan_of,
    infeasible_text, instance_of, leaf_text, say_report,
};
use instance_model::{Instance, Limits};
use plan_desk::Desk;
use plan_score::{Rule, broken_rule, plan_values};
use plan_text::Plan;
use std::alloc::{AllocError, Global};

/// What a plan comes to, if one is given.
#[derive(Drop)]
enum Given {
    /// It keeps the rules; its score, if there is a plan.
    Kept(Option<i128>),
    /// The first rule that it breaks.
    Broken(Rule),
}

/// Checks a certificate of version 1 or 2, and says the report.
pub fn check_files<D: Desk>(
    alloc: Global,
    source: &Source<'_>,
    plan: Option<&str>,
    certificate: &str,
    desk: &mut D,
) -> u8
    requires small { source.now.slack ≤ 1_000_000_000 }
    ensures { RunsCheck standard_limits (source_view source.now) (option_copied plan.entry) certificate.now
        (D.shows desk.old) (D.shows desk.new) result }
{
    check_files_by::<Certificate, D>(alloc, source, plan, certificate, desk)
}

/// Checks a certificate of this kind, and says the report.
pub fn check_files_by<C: FileCertificate, D: Desk>(
    alloc: Global,
    source: &Source<'_>,
    plan: Option<&str>,
    certificate: &str,
    desk: &mut D,
) -> u8
    requires small { source.now.slack ≤ 1_000_000_000 }
    ensures { RunsCheckBy C.kind standard_limits (source_view source.now) (option_copied plan.entry) certificate.now
        (D.shows desk.old) (D.shows desk.new) result }
{
    let limits = Limits::standard();
    let report = check_certificate::<C, D>(alloc, &limits, source, plan, certificate, desk);
    say_report(alloc, desk, report)
}

/// Reads the instance, then the plan if one is given, then the certificate, and checks it.
fn check_certificate<C: FileCertificate, D: Desk>(
    alloc: Global,
    limits: &Limits,
    source: &Source<'_>,
    plan: Option<&str>,
    certificate: &str,
    desk: &mut D,
) -> Result<Report, Refusal>
    requires standard { AreStandard limits.now }
    requires small { source.now.slack ≤ 1_000_000_000 }
    ensures ok { IfOk result (λ report. AnswersCheckBy C.kind limits.now
        (reading (D.shows desk.old) (D.shows desk.new)) source.now.slack source.now.instance.now
        (option_copied plan.entry) certificate.now (reply report.status report.text)) }
    ensures err { IfErr result (IsDueAs (AnswersCheckBy C.kind limits.now
        (reading (D.shows desk.old) (D.shows desk.new)) source.now.slack source.now.instance.now
        (option_copied plan.entry) certificate.now)) }
    ensures faults { OnOk result ((D.shows desk.new).faults ≡ (D.shows desk.old).faults) }
    ensures kept { IfErr result (CountsRefusal (D.shows desk.old) (D.shows desk.new)) }
    ensures only_reads { OnlyReads (D.shows desk.old) (D.shows desk.new) }
{
    let inst = instance_of(alloc, limits, 2, source, desk)?;
    let plan = given_plan_of(alloc, limits, &inst, 3, plan, desk)?;
    let certificate: C = certificate_of(alloc, limits, &inst, 4, certificate, desk)?;
    match report_on(alloc, &inst, &plan, &certificate) {
        Ok(report) => Ok(report),
        Err(_) => Err(Refusal::Memory),
    }
}

/// What is answered on the plan, if one is given, and on the certificate.
fn report_on<C: FileCertificate>(
    alloc: Global,
    inst: &Instance,
    plan: &Option<Plan>,
    certificate: &C,
) -> Result<Report, AllocError>
    requires each { IfSome plan.now (λ p. length p ≡ length inst.now.names) }
    requires in_range { C.kind.range inst.now certificate.now }
    ensures { IfOk result
        (λ report. ChecksBy C.kind inst.now plan.now certificate.now (reply report.status report.text)) }
{
    let given = given_of(alloc, inst, plan)?;
    match given {
        Given::Kept(score) => report_kept(alloc, inst, score, certificate),
        Given::Broken(rule) => Ok(Report {
            status: 1,
            text: infeasible_text(alloc, inst, &rule)?,
        }),
    }
}

/// What the plan comes to, if one is given.
fn given_of(alloc: Global, inst: &Instance, plan: &Option<Plan>) -> Result<Given, AllocError>
    requires each { IfSome plan.now (λ p. length p ≡ length inst.now.names) }
    ensures { IfOk result (StandsAs inst.now plan.now) }
{
    match plan {
        None => Ok(Given::Kept(None)),
        Some(plan) => judged(alloc, inst, plan),
    }
}

/// What a plan comes to.
fn judged(alloc: Global, inst: &Instance, plan: &Plan) -> Result<Given, AllocError>
    requires each { length plan.now ≡ length inst.now.names }
    ensures { IfOk result (StandsAs inst.now (Some plan.now)) }
{
    match broken_rule(inst, plan.as_slice()) {
        Some(rule) => Ok(Given::Broken(rule)),
        None => {
            let values = plan_values(alloc, inst, plan.as_slice())?;
            Ok(Given::Kept(Some(values.score)))
        }
    }
}

/// What is answered on the certificate, where a plan that was given keeps the rules and has this score.
fn report_kept<C: FileCertificate>(
    alloc: Global,
    inst: &Instance,
    score: Option<i128>,
    certificate: &C,
) -> Result<Report, AllocError>
    requires score { IfSome score (λ z. unsigned_abs z < 10 ^ 36) }
    requires in_range { C.kind.range inst.now certificate.now }
    ensures { IfOk result
        (λ report. ChecksFor inst.now score (C.kind.claim inst.now certificate.now) report.status report.text) }
{
    inst.cost_is_just_above_score();
    C::laws(inst);
    let verdict = verdict_of(alloc, inst, certificate)?;
    match verdict {
        CertVerdict::Valid => Ok(Report {
            status: 0,
            text: accepted_text(alloc, inst, certificate.bound(), score)?,
        }),
        CertVerdict::LeafFails { n } => Ok(Report {
            status: 5,
            text: leaf_text(alloc, n)?,
        }),
    }
}
