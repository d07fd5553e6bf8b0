//! A plan whose changes go back one by one.
ghost use Rattle.std.specs.Prelude.{◌≡◌, ◌≤◌, length, map, Some, IfOk};
ghost use Rattle.instance_model.specs.Rules.{IsFeasible};
ghost use Rattle.plan_changes.specs.Changes.{changes_of};
ghost use Rattle.plan_changes.specs.Returning.{AreFromEither, NoneCanGoBack};

use crate::trial::{Trial, round};
use instance_model::{Instance, Starts, plan_of};
use std::alloc::{AllocError, Global};

/// Gives starts of a feasible plan back to their old ones, one at a time, until no single change can go back and leave
/// the plan feasible. `plan` has the old starts.
///
/// Takes memory for two copies of the plan.
pub fn give_back(
    alloc: Global,
    inst: &Instance,
    plan: &[Option<u32>],
    starts: &[u32],
) -> Result<Starts, AllocError>
    requires each { length starts.now ≡ length inst.now.names }
    requires feasible { IsFeasible inst.now (map Some starts.now) }
    ensures each { IfOk result (λ new. length new ≡ length inst.now.names) }
    ensures feasible { IfOk result (λ new. IsFeasible inst.now (map Some new)) }
    ensures either { IfOk result (AreFromEither plan.now starts.now) }
    ensures few { IfOk result (λ new. changes_of plan.now new ≤ changes_of plan.now starts.now) }
    ensures none_left { IfOk result (NoneCanGoBack inst.now plan.now) }
{
    let mut trial = Trial {
        starts: Vec::from_slice(alloc, starts)?,
        plan: plan_of(alloc, starts)?,
    };
    while round(inst, plan, &mut trial) {}
    let Trial { starts, plan: _ } = trial;
    Ok(Starts::from_vec(starts))
}
