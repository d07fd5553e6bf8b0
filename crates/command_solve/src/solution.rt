//! What is answered to an instance.
ghost use Rattle.std.specs.Prelude.{◌≤◌, ◌^◌, ℕ, IfOk, unsigned_abs};
ghost use Rattle.certificate_tree.specs.Ranges.{IsBoundInRange};
ghost use Rattle.branch_search.specs.Best.{IsFeasiblePlan};
ghost use Rattle.instance_model.specs.Keys.{IsOpening};
ghost use Rattle.local_search.specs.Openings.{IsWithoutStart};
ghost use Rattle.command_solve.specs.Made.{CanReport, ReportsPlan, IsReportOf, IsSolution};

use crate::making::make;
use crate::report::{found_text, none_text, nothing_text};
use branch_search::{TreeEnd, empty_certificate};
use certificate_text::{Bound, Certificate, texts_are_short};
use command_answers::valid_is_accepted;
use command_frame::Report;
use instance_model::{Instance, Starts, plan_of};
use local_search::{Opening, opening_of};
use plan_moves::Moves;
use plan_score::{Verdict, judge};
use quantile_index::Row;
use std::alloc::{AllocError, Global};

/// What is said of an instance, and what the files are to hold.
#[derive(Drop)]
pub(crate) struct Solution {
    pub report: Report,
    pub certificate: Certificate,
    pub moves: Moves,
    /// The plan, where one was found.
    pub plan: Option<Starts>,
}

/// Makes the solution of an instance.
pub(crate) fn solution_of<R: Row>(
    alloc: Global,
    inst: &Instance,
    turns: u32,
) -> Result<Solution, AllocError>
    requires { turns ≤ 1_000_000 }
    ensures { IfOk result (IsSolution inst.now turns) }
{
    match opening_of(alloc, inst)? {
        Opening::From(opening) => solution_from::<R>(alloc, inst, opening.as_slice(), turns),
        Opening::Without { i } => startless(alloc, inst, i),
    }
}

/// The solution that a descent from this plan and a search make.
fn solution_from<R: Row>(
    alloc: Global,
    inst: &Instance,
    opening: &[u32],
    turns: u32,
) -> Result<Solution, AllocError>
    requires opening { IsOpening inst.now opening.now }
    requires turns { turns ≤ 1_000_000 }
    ensures { IfOk result (IsSolution inst.now turns) }
{
    inst.fits();
    valid_is_accepted::<Certificate>(inst);
    let made = make::<R>(alloc, inst, opening, turns)?;
    let report = report_on(alloc, inst, &made.answer, &made.moves)?;
    let TreeEnd {
        cert,
        best,
        unfinished: _,
    } = made.answer;
    Ok(Solution {
        report,
        certificate: cert,
        moves: made.moves,
        plan: best,
    })
}

/// The report on the answer of a search behind these changes.
fn report_on(
    alloc: Global,
    inst: &Instance,
    answer: &TreeEnd,
    moves: &Moves,
) -> Result<Report, AllocError>
    requires can { CanReport inst.now answer.now.best answer.now.cert.bound }
    requires bound { IsBoundInRange answer.now.cert.bound }
    ensures { IfOk result
        (IsReportOf inst.now answer.now.best answer.now.cert.bound answer.now.cert moves.now) }
{
    match (&answer.best, answer.cert.bound) {
        (Some(plan), Bound::Least(bound)) => {
            report_plan(alloc, inst, plan.as_slice(), bound, &answer.cert, moves)
        }
        (None, Bound::Least(bound)) => Ok(Report {
            status: 9,
            text: nothing_text(alloc, inst, bound, &answer.cert, moves)?,
        }),
        (None, Bound::NoPlan) => Ok(Report {
            status: 10,
            text: none_text(alloc, inst, &answer.cert, moves)?,
        }),
        (Some(_), Bound::NoPlan) => unreachable!(),
    }
}

/// The report on a plan that was found.
fn report_plan(
    alloc: Global,
    inst: &Instance,
    plan: &[u32],
    bound: i128,
    certificate: &Certificate,
    moves: &Moves,
) -> Result<Report, AllocError>
    requires plan { IsFeasiblePlan inst.now plan.now }
    requires bound { unsigned_abs bound ≤ 10 ^ 36 }
    ensures { IfOk result (ReportsPlan inst.now plan.now bound certificate.now moves.now) }
{
    let plan = plan_of(alloc, plan)?;
    match judge(alloc, inst, plan.as_slice())? {
        Verdict::Feasible(values) => Ok(Report {
            status: 0,
            text: found_text(alloc, inst, &values, bound, certificate, moves)?,
        }),
        Verdict::Broken(_) => unreachable!(),
    }
}

/// The solution where this intervention is the first without an allowed start.
fn startless(alloc: Global, inst: &Instance, i: u32) -> Result<Solution, AllocError>
    requires { IsWithoutStart inst.now i }
    ensures { IfOk result (λ solution. (turns : ℕ) → IsSolution inst.now turns solution) }
{
    inst.fits();
    texts_are_short();
    valid_is_accepted::<Certificate>(inst);
    let certificate = empty_certificate(alloc, i)?;
    let moves = Moves::from_vec(Vec::new(alloc));
    let text = none_text(alloc, inst, &certificate, &moves)?;
    Ok(Solution {
        report: Report { status: 10, text },
        certificate,
        moves,
        plan: None,
    })
}
