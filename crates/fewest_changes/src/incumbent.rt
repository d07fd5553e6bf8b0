//! The plan that the search is given.
ghost use Rattle.std.specs.Prelude.{IfOk};
ghost use Rattle.instance_model.specs.Plans.{AreAllowedStarts};
ghost use Rattle.fewest_changes.specs.Incumbents.{IsIncumbent};

use instance_model::{Instance, Starts, plan_of};
use local_search::descend_from;
use plan_changes::give_back;
use plan_score::broken_rule;
use quantile_index::Row;
use std::alloc::{AllocError, Global};

/// The opening, where it is feasible; else what the end of a descent from it gives back, where that end is feasible.
pub(crate) fn incumbent_of<R: Row>(
    alloc: Global,
    inst: &Instance,
    old: &[Option<u32>],
    opening: &[u32],
    turns: u32,
) -> Result<Option<Starts>, AllocError>
    requires { AreAllowedStarts inst.now opening.now }
    ensures { IfOk result (IsIncumbent inst.now old.now turns opening.now) }
{
    let plan = plan_of(alloc, opening)?;
    let is_broken = broken_rule(inst, plan.as_slice()).is_some();
    if !is_broken {
        let starts = Vec::from_slice(alloc, opening)?;
        return Ok(Some(Starts::from_vec(starts)));
    }
    let descended = descend_from::<R>(alloc, inst, opening, turns)?;
    if !descended.feasible {
        return Ok(None);
    }
    let end = descended.starts.as_slice();
    let given = give_back(alloc, inst, old, end)?;
    Ok(Some(given))
}
