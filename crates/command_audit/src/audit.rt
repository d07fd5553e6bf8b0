//! The command `audit`: all files are read, the certificate is checked for the number of changes, and the report is
//! said.
ghost use Rattle.std.specs.Prelude.{◌≡◌, ◌≤◌, IfOk, IfErr, OnOk};
ghost use Rattle.instance_model.specs.Limits.{standard_limits};
ghost use Rattle.instance_shape.specs.Ranges.{AreStandard};
ghost use Rattle.certificate_tree.specs.Ranges.{IsInRange};
ghost use Rattle.plan_desk.specs.Contents.{OnlyReads};
ghost use Rattle.command_frame.specs.Sources.{source_view};
ghost use Rattle.command_frame.specs.Ending.{reply};
ghost use Rattle.command_frame.specs.Files.{reading};
ghost use Rattle.command_frame.specs.Refusals.{IsDueAs, CountsRefusal};
ghost use Rattle.command_audit.specs.Auditing.{RunsAudit};
ghost use Rattle.command_answers.specs.Audit.{Audits, AnswersAudit};

use crate::report::audited_text;
use certificate_check::{CertVerdict, check_for};
use certificate_text::Certificate;
use command_frame::{
    Refusal, Report, Source, certificate_of, instance_of, leaf_text, plan_of, say_report,
};
use instance_model::{Instance, Limits};
use plan_changes::{ChangeGoal, bounds_count_changes};
use plan_desk::Desk;
use plan_text::Plan;
use std::alloc::{AllocError, Global};

/// Checks a certificate of the least number of changes from a plan, and says the report.
///
/// The instance file is word 2, the plan file word 3, and the certificate file word 4. The plan need not keep any rule.
pub fn audit_files<D: Desk>(
    alloc: Global,
    source: &Source<'_>,
    plan: &str,
    certificate: &str,
    desk: &mut D,
) -> u8
    requires small { source.now.slack ≤ 1_000_000_000 }
    ensures { RunsAudit standard_limits (source_view source.now) plan.now certificate.now
        (D.shows desk.old) (D.shows desk.new) result }
{
    let limits = Limits::standard();
    let report = audit(alloc, &limits, source, plan, certificate, desk);
    say_report(alloc, desk, report)
}

/// Reads the instance, then the plan, then the certificate, and checks it.
fn audit<D: Desk>(
    alloc: Global,
    limits: &Limits,
    source: &Source<'_>,
    plan: &str,
    certificate: &str,
    desk: &mut D,
) -> Result<Report, Refusal>
    requires standard { AreStandard limits.now }
    requires small { source.now.slack ≤ 1_000_000_000 }
    ensures ok { IfOk result (λ report. AnswersAudit limits.now (reading (D.shows desk.old) (D.shows desk.new))
        source.now.slack source.now.instance.now plan.now certificate.now (reply report.status report.text)) }
    ensures err { IfErr result (IsDueAs (AnswersAudit limits.now (reading (D.shows desk.old) (D.shows desk.new))
        source.now.slack source.now.instance.now plan.now certificate.now)) }
    ensures faults { OnOk result ((D.shows desk.new).faults ≡ (D.shows desk.old).faults) }
    ensures kept { IfErr result (CountsRefusal (D.shows desk.old) (D.shows desk.new)) }
    ensures only_reads { OnlyReads (D.shows desk.old) (D.shows desk.new) }
{
    let inst = instance_of(alloc, limits, 2, source, desk)?;
    let plan = plan_of(alloc, limits, &inst, 3, plan, desk)?;
    let certificate = certificate_of(alloc, limits, &inst, 4, certificate, desk)?;
    match report_on(alloc, &inst, &plan, &certificate) {
        Ok(report) => Ok(report),
        Err(_) => Err(Refusal::Memory),
    }
}

/// What is answered on the certificate.
fn report_on(
    alloc: Global,
    inst: &Instance,
    plan: &Plan,
    certificate: &Certificate,
) -> Result<Report, AllocError>
    requires in_range { IsInRange inst.now certificate.now }
    ensures { IfOk result (λ report. Audits inst.now plan.now certificate.now (reply report.status report.text)) }
{
    bounds_count_changes();
    let goal = ChangeGoal::make(alloc, plan.as_slice())?;
    let verdict = check_for(alloc, &goal, inst, certificate)?;
    match verdict {
        CertVerdict::Valid => Ok(Report {
            status: 0,
            text: audited_text(alloc, inst, certificate.bound)?,
        }),
        CertVerdict::LeafFails { n } => Ok(Report {
            status: 5,
            text: leaf_text(alloc, n)?,
        }),
    }
}
