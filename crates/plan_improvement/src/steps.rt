//! From a plan that keeps every rule to one that is no worse.
ghost use Rattle.std.specs.Prelude.{IfOk};
ghost use Rattle.plan_improvement.specs.Improving.{IsJudged};
ghost use Rattle.plan_improvement.specs.Steps.{IsNoWorse, IsSettledFrom, IsBetter};

use crate::judging::{Judged, kept_values};
use instance_model::Instance;
use local_search::descend_from;
use plan_annealing::anneal;
use quantile_index::Row;
use std::alloc::{AllocError, Global};

/// How many tries of the annealing stand for a turn.
const TRIES: u64 = 1_000;

/// How many changes the descent has at most that ends an improvement.
const SETTLING: u32 = 1_000;

/// What annealing finds from a plan, where that keeps every rule and its score isn't above; else the plan itself.
fn annealed(
    alloc: Global,
    inst: &Instance,
    plan: Judged,
    turns: u32,
    seed: u64,
) -> Result<Judged, AllocError>
    requires { IsJudged inst.now plan.starts plan.values }
    ensures { IfOk result (IsNoWorse inst.now plan.starts) }
{
    let found = anneal(
        alloc,
        inst,
        plan.starts.as_slice(),
        u64::from(turns) * TRIES,
        seed,
    )?;
    if let Some(values) = kept_values(alloc, inst, found.as_slice())? {
        if values.score <= plan.values.score {
            return Ok(Judged {
                starts: found,
                values,
            });
        }
    }
    Ok(plan)
}

/// The end of a descent from a plan.
fn settled<R: Row>(alloc: Global, inst: &Instance, plan: &Judged) -> Result<Judged, AllocError>
    requires { IsJudged inst.now plan.now.starts plan.now.values }
    ensures { IfOk result (IsSettledFrom inst.now plan.now.starts) }
{
    let descended = descend_from::<R>(alloc, inst, plan.starts.as_slice(), SETTLING)?;
    match kept_values(alloc, inst, descended.starts.as_slice())? {
        Some(values) => Ok(Judged {
            starts: descended.starts,
            values,
        }),
        None => unreachable!(),
    }
}

/// A plan that is no worse: the end of a descent from what annealing finds, where there are turns.
pub(crate) fn bettered<R: Row>(
    alloc: Global,
    inst: &Instance,
    plan: Judged,
    turns: u32,
    seed: u64,
) -> Result<Judged, AllocError>
    requires { IsJudged inst.now plan.starts plan.values }
    ensures { IfOk result (IsBetter inst.now turns plan.starts) }
{
    if turns == 0 {
        return Ok(plan);
    }
    let found = annealed(alloc, inst, plan, turns, seed)?;
    settled::<R>(alloc, inst, &found)
}
