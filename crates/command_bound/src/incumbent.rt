//! The plan that is handed in to the search: the one that was given, where it keeps every rule.
ghost use Rattle.std.specs.Prelude.{◌≡◌, length, Some, IfOk, IfSome};
ghost use Rattle.command_bound.specs.Made.{IsChosen};

use command_frame::{Opening, opening_of};
use instance_model::{Instance, Starts};
use plan_score::{Verdict, judge};
use plan_text::Plan;
use std::alloc::{AllocError, Global};

/// A plan that keeps every rule, by its starts, and its score.
#[derive(Drop)]
pub(crate) struct Incumbent {
    pub starts: Starts,
    pub score: i128,
}

/// A plan with its score, where it keeps every rule.
fn kept_plan(alloc: Global, inst: &Instance, plan: &Plan) -> Result<Option<Incumbent>, AllocError>
    requires { length plan.now ≡ length inst.now.names }
    ensures { IfOk result (IsChosen inst.now (Some plan.now)) }
{
    let score = match judge(alloc, inst, plan.as_slice())? {
        Verdict::Feasible(values) => values.score,
        Verdict::Broken(_) => return Ok(None),
    };
    match opening_of(alloc, inst, plan)? {
        Opening::Starts(starts) => Ok(Some(Incumbent { starts, score })),
        Opening::Broken(_) => unreachable!(),
    }
}

/// The plan that was given, where it keeps every rule; else it is left aside.
pub(crate) fn incumbent_of(
    alloc: Global,
    inst: &Instance,
    given: &Option<Plan>,
) -> Result<Option<Incumbent>, AllocError>
    requires { IfSome given.now (λ plan. length plan ≡ length inst.now.names) }
    ensures { IfOk result (IsChosen inst.now given.now) }
{
    match given {
        Some(plan) => kept_plan(alloc, inst, plan),
        None => Ok(None),
    }
}
