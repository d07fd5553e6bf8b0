//! Annealing from a plan.

ghost use Rattle.std.specs.Prelude.{◌≡◌, ◌<◌, IfOk};
ghost use Rattle.instance_model.specs.Plans.{AreAllowedStarts};

use crate::level::run_levels;
use crate::state::State;
use instance_model::{Instance, Starts};
use std::alloc::{AllocError, Global};

/// Takes over each start of another plan that is allowed.
fn take_starts(inst: &Instance, starts: &mut Vec<u32>, plan: &[u32])
    requires { AreAllowedStarts inst.now starts.old.items }
    ensures { AreAllowedStarts inst.now starts.new.items }
{
    for i in 0..inst.interventions() {
        if let Some(s) = plan.get(i as usize) {
            if inst.allowed(i, *s) {
                starts[i as usize] = *s;
            }
        }
    }
}

/// A plan found by annealing among plans that keep every rule, begun at one that does: the best that was met. It takes
/// so many tries, and the same words lead to the same plan. Where the given plan breaks a rule it is of no use. Fails
/// only where memory is refused, which is taken before the first try: at most 64 MB.
pub fn anneal(
    alloc: Global,
    inst: &Instance,
    plan: &[u32],
    tries: u64,
    seed: u64,
) -> Result<Starts, AllocError>
    requires plan { AreAllowedStarts inst.now plan.now }
    ensures starts { IfOk result (AreAllowedStarts inst.now) }
{
    let mut starts = plan.to_vec(alloc)?;
    if tries == 0 || inst.interventions() == 0 {
        return Ok(Starts::from_vec(starts));
    }
    let mut state = State::make(alloc, inst, plan)?;
    run_levels(&mut state, tries, seed);
    take_starts(inst, &mut starts, state.best.as_slice());
    Ok(Starts::from_vec(starts))
}
