//! The first plan that keeps every rule.
ghost use Rattle.std.specs.Prelude.{◌≡◌, map, Some, IfOk, IfSome};
ghost use Rattle.instance_model.specs.Plans.{AreAllowedStarts};
ghost use Rattle.instance_model.specs.Keys.{violation_of};
ghost use Rattle.plan_improvement.specs.Improving.{IsJudged, looking_turns};
ghost use Rattle.plan_improvement.specs.Steps.{IsFirst, IsLookedFor};

use crate::judging::{Judged, kept_values};
use instance_model::{Instance, Starts};
use local_search::descend_from;
use plan_breakout::mended;
use plan_moves::Kept;
use quantile_index::Row;
use std::alloc::{AllocError, Global};

/// A plan that keeps every rule, or how far the last plan that was met is from that.
#[derive(Drop)]
pub(crate) enum First {
    Kept(Judged),
    Broken { violation: i128 },
}

/// The opening, where it keeps every rule; else the end of a descent from it.
pub(crate) fn first_of<R: Row>(
    alloc: Global,
    inst: &Instance,
    opening: Starts,
    turns: u32,
    seed: u64,
) -> Result<First, AllocError>
    requires { AreAllowedStarts inst.now opening }
    ensures { IfOk result (IsFirst inst.now turns opening) }
{
    match kept_values(alloc, inst, opening.as_slice())? {
        Some(values) => Ok(First::Kept(Judged {
            starts: opening,
            values,
        })),
        None => looked_for::<R>(alloc, inst, opening.as_slice(), turns, seed),
    }
}

/// From a plan that breaks a rule: what a breakout finds from this seed, where that keeps every rule; else the end of a
/// descent.
fn looked_for<R: Row>(
    alloc: Global,
    inst: &Instance,
    opening: &[u32],
    turns: u32,
    seed: u64,
) -> Result<First, AllocError>
    requires { AreAllowedStarts inst.now opening.now }
    ensures { IfOk result (IsLookedFor inst.now turns opening.now) }
{
    let most = looking_turns(turns);
    if turns > 0 {
        if let Some(plan) = mended_plan(alloc, inst, opening, most, seed)? {
            return Ok(First::Kept(plan));
        }
    }
    let descended = descend_from::<R>(alloc, inst, opening, most)?;
    match kept_values(alloc, inst, descended.starts.as_slice())? {
        Some(values) => Ok(First::Kept(Judged {
            starts: descended.starts,
            values,
        })),
        None => Ok(First::Broken {
            violation: violation_at::<R>(alloc, inst, descended.starts.as_slice())?,
        }),
    }
}

/// What a breakout finds from a plan, where that keeps every rule.
fn mended_plan(
    alloc: Global,
    inst: &Instance,
    opening: &[u32],
    turns: u32,
    seed: u64,
) -> Result<Option<Judged>, AllocError>
    requires { AreAllowedStarts inst.now opening.now }
    ensures { IfOk result (λ found. IfSome found (λ plan. IsJudged inst.now plan.starts plan.values)) }
{
    let starts = mended(alloc, inst, opening.to_vec(alloc)?, turns, seed)?;
    match kept_values(alloc, inst, starts.as_slice())? {
        Some(values) => Ok(Some(Judged {
            starts: Starts::from_vec(starts),
            values,
        })),
        None => Ok(None),
    }
}

/// How many changes a descent has at most that looks for a plan which keeps every rule.
fn looking_turns(turns: u32) -> u32
    ensures { result ≡ looking_turns turns }
{
    if turns == 0 {
        0
    } else {
        turns.max(2_000).min(20_000)
    }
}

/// How far a plan is from the rules.
fn violation_at<R: Row>(alloc: Global, inst: &Instance, starts: &[u32]) -> Result<i128, AllocError>
    requires { AreAllowedStarts inst.now starts.now }
    ensures { IfOk result (λ violation. violation ≡ violation_of inst.now (map Some starts.now)) }
{
    let kept = Kept::<R>::make(alloc, inst, starts)?;
    Ok(kept.key().violation)
}
