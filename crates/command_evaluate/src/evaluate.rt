//! The command `evaluate`: both files are read, the plan is judged, and the report is said.
ghost use Rattle.std.specs.Prelude.{◌≡◌, ◌≤◌, length, IfOk, IfErr, OnOk};
ghost use Rattle.instance_model.specs.Limits.{standard_limits};
ghost use Rattle.instance_shape.specs.Ranges.{AreStandard};
ghost use Rattle.plan_desk.specs.Contents.{OnlyReads};
ghost use Rattle.command_frame.specs.Sources.{source_view};
ghost use Rattle.command_frame.specs.Ending.{reply};
ghost use Rattle.command_frame.specs.Files.{reading};
ghost use Rattle.command_evaluate.specs.Evaluating.{RunsEvaluate};
ghost use Rattle.command_answers.specs.Evaluate.{Judges, AnswersEvaluate};
ghost use Rattle.command_frame.specs.Refusals.{IsDueAs, CountsRefusal};

use command_frame::{
    Refusal, Report, Source, feasible_text, infeasible_text, instance_of, plan_of, say_report,
};
use instance_model::{Instance, Limits};
use plan_desk::Desk;
use plan_score::{Verdict, judge};
use plan_text::Plan;
use std::alloc::{AllocError, Global};

/// Evaluates a plan, and says the report.
pub fn evaluate_files<D: Desk>(alloc: Global, source: &Source<'_>, plan: &str, desk: &mut D) -> u8
    requires small { source.now.slack ≤ 1_000_000_000 }
    ensures { RunsEvaluate standard_limits (source_view source.now) plan.now (D.shows desk.old)
        (D.shows desk.new) result }
{
    let limits = Limits::standard();
    let report = evaluate(alloc, &limits, source, plan, desk);
    say_report(alloc, desk, report)
}

/// Reads the instance, then the plan, and judges it.
fn evaluate<D: Desk>(
    alloc: Global,
    limits: &Limits,
    source: &Source<'_>,
    plan: &str,
    desk: &mut D,
) -> Result<Report, Refusal>
    requires standard { AreStandard limits.now }
    requires small { source.now.slack ≤ 1_000_000_000 }
    ensures ok { IfOk result (λ report. AnswersEvaluate limits.now (reading (D.shows desk.old) (D.shows desk.new))
        source.now.slack source.now.instance.now plan.now (reply report.status report.text)) }
    ensures err { IfErr result (IsDueAs (AnswersEvaluate limits.now (reading (D.shows desk.old) (D.shows desk.new))
        source.now.slack source.now.instance.now plan.now)) }
    ensures faults { OnOk result ((D.shows desk.new).faults ≡ (D.shows desk.old).faults) }
    ensures kept { IfErr result (CountsRefusal (D.shows desk.old) (D.shows desk.new)) }
    ensures only_reads { OnlyReads (D.shows desk.old) (D.shows desk.new) }
{
    let inst = instance_of(alloc, limits, 2, source, desk)?;
    let plan = plan_of(alloc, limits, &inst, 3, plan, desk)?;
    match report_on(alloc, &inst, &plan) {
        Ok(report) => Ok(report),
        Err(_) => Err(Refusal::Memory),
    }
}

/// The verdict on a plan as a report.
fn report_on(alloc: Global, inst: &Instance, plan: &Plan) -> Result<Report, AllocError>
    requires { length plan.now ≡ length inst.now.names }
    ensures { IfOk result (λ report. Judges inst.now plan.now (reply report.status report.text)) }
{
    match judge(alloc, inst, plan.as_slice())? {
        Verdict::Feasible(values) => Ok(Report {
            status: 0,
            text: feasible_text(alloc, inst, &values)?,
        }),
        Verdict::Broken(rule) => Ok(Report {
            status: 1,
            text: infeasible_text(alloc, inst, &rule)?,
        }),
    }
}
