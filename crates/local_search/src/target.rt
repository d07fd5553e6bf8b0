//! The plan that a descent is led towards, found before it makes a change.
ghost use Rattle.std.specs.Prelude.{◌≡◌, IfOk};
ghost use Rattle.instance_model.specs.Plans.{AreAllowedStarts};
ghost use Rattle.plan_moves.specs.KeptPlans.{present};

use instance_model::Instance;
use plan_annealing::anneal;
use plan_breakout::mended;
use plan_moves::Kept;
use quantile_index::Row;
use std::alloc::{AllocError, Global};

/// Up to how many turns the number of tries of the annealing grows, and how many tries stand for a turn.
const MOST_TURNS: u32 = 50_000;

const TRIES: u32 = 300;

/// From which the annealing draws.
const SEED: u64 = 1;

/// The starts of the present plan.
fn present_starts<R: Row>(alloc: Global, kept: &Kept<'_, R>) -> Result<Vec<u32>, AllocError>
    ensures { IfOk result (λ starts. starts.items ≡ present kept.now.plans) }
{
    kept.allowed();
    let mut starts = Vec::new(alloc);
    for i in 0..kept.instance().interventions() {
        starts.push(kept.start_of(i))?;
    }
    Ok(starts)
}

/// Whether a plan has nothing outside its limits and breaks no exclusion.
fn is_whole<R: Row>(alloc: Global, inst: &Instance, starts: &[u32]) -> Result<bool, AllocError>
    requires { AreAllowedStarts inst.now starts.now }
{
    let kept = Kept::<R>::make(alloc, inst, starts)?;
    Ok(kept.key().violation == 0)
}

/// A plan of allowed starts, of low key where one was found: one that keeps every rule is looked for first, and from
/// there ones of low score. Takes memory; where there are no turns it looks for none.
pub(crate) fn target_of<R: Row>(
    alloc: Global,
    kept: &Kept<'_, R>,
    turns: u32,
) -> Result<Vec<u32>, AllocError>
    ensures { IfOk result (λ target. AreAllowedStarts kept.now.instance target.items) }
{
    kept.allowed();
    let mut starts = present_starts(alloc, kept)?;
    if turns == 0 {
        return Ok(starts);
    }
    let inst = kept.instance();
    if kept.key().violation > 0 {
        starts = mended(alloc, inst, starts, turns, SEED)?;
        if !is_whole::<R>(alloc, inst, starts.as_slice())? {
            return Ok(starts);
        }
    }
    let tries = u64::from(turns.min(MOST_TURNS) * TRIES);
    let found = anneal(alloc, inst, starts.as_slice(), tries, SEED)?;
    Ok(found.into_vec())
}
