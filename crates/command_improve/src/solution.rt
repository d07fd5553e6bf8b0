//! What is answered to an instance and a plan.
ghost use Rattle.std.specs.Prelude.{◌≡◌, ◌<◌, ◌^◌, length, IfOk, IfSome, unsigned_abs};
ghost use Rattle.plan_improvement.specs.Improving.{IsImproved};
ghost use Rattle.command_improve.specs.Improving.{old_starts, score_before};
ghost use Rattle.command_improve.specs.Made.{IsSolution};

use crate::report::{improved_text, none_text, nothing_text};
use command_frame::Report;
use instance_model::{Instance, Starts};
use plan_changes::changes;
use plan_improvement::{Improvement, Judged, improve};
use plan_score::{Verdict, judge};
use plan_text::Plan;
use quantile_index::Row;
use std::alloc::{AllocError, Global};

/// What is said of an instance and a plan, and what the file is to hold.
#[derive(Drop)]
pub(crate) struct Solution {
    pub report: Report,
    /// The plan, where one was found.
    pub plan: Option<Starts>,
}

/// The starts of a plan, if one is given.
fn old_starts(given: &Option<Plan>) -> &[Option<u32>]
    ensures { result.now ≡ old_starts given.now }
{
    match given {
        Some(plan) => plan.as_slice(),
        None => &[],
    }
}

/// The score of a plan, if one is given and breaks no rule.
fn score_before(
    alloc: Global,
    inst: &Instance,
    given: &Option<Plan>,
) -> Result<Option<i128>, AllocError>
    requires { IfSome given.now (λ plan. length plan ≡ length inst.now.names) }
    ensures value { IfOk result (λ before. before ≡ score_before inst.now given.now) }
    ensures small { IfOk result (λ before. IfSome before (λ score. unsigned_abs score < 10 ^ 33)) }
{
    let Some(plan) = given else {
        return Ok(None);
    };
    match judge(alloc, inst, plan.as_slice())? {
        Verdict::Feasible(values) => Ok(Some(values.score)),
        Verdict::Broken(_) => Ok(None),
    }
}

/// Makes the solution of an instance and a plan, if one is given.
pub(crate) fn solution_of<R: Row>(
    alloc: Global,
    inst: &Instance,
    given: &Option<Plan>,
    turns: u32,
    seed: u64,
) -> Result<Solution, AllocError>
    requires { IfSome given.now (λ plan. length plan ≡ length inst.now.names) }
    ensures { IfOk result (IsSolution inst.now given.now turns) }
{
    match improve::<R>(alloc, inst, old_starts(given), turns, seed)? {
        Improvement::Found(found) => found_solution(alloc, inst, given, found, turns),
        Improvement::Nothing { violation } => Ok(Solution {
            report: Report {
                status: 9,
                text: nothing_text(alloc, inst, violation)?,
            },
            plan: None,
        }),
        Improvement::Without { i: _ } => Ok(Solution {
            report: Report {
                status: 10,
                text: none_text(alloc, inst)?,
            },
            plan: None,
        }),
    }
}

/// The solution where a plan was found.
fn found_solution(
    alloc: Global,
    inst: &Instance,
    given: &Option<Plan>,
    found: Judged,
    turns: u32,
) -> Result<Solution, AllocError>
    requires given { IfSome given.now (λ plan. length plan ≡ length inst.now.names) }
    requires found { IsImproved inst.now (old_starts given.now) turns found.starts found.values }
    ensures { IfOk result (IsSolution inst.now given.now turns) }
{
    inst.fits();
    let _turns = turns;
    let before = score_before(alloc, inst, given)?;
    let changed = changes(old_starts(given), found.starts.as_slice());
    let text = improved_text(alloc, inst, &found.values, before, changed)?;
    Ok(Solution {
        report: Report { status: 0, text },
        plan: Some(found.starts),
    })
}
