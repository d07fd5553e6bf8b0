//! The search for few changes, and the plan that it gives back.
ghost use Rattle.std.specs.Prelude.{◌≡◌, IfOk, IfSome, option_map};
ghost use Rattle.branch_search.specs.Best.{IsFeasiblePlan};
ghost use Rattle.fewest_changes.specs.Openings.{IsKeptOpening};
ghost use Rattle.fewest_changes.specs.Repaired.{IsBackOf, IsMadeRepair};

use crate::incumbent::incumbent_of;
use branch_search::{TreeEnd, search};
use certificate_tree::{Certificate, valid_bounds_plans};
use instance_model::{Instance, Starts};
use plan_changes::{ChangeGoal, bounds_count_changes, give_back, old_starts_are_no_changes};
use quantile_index::Row;
use std::alloc::{AllocError, Global};

/// A certificate of the least number of changes, and a plan, where one was found.
#[derive(Drop)]
pub struct Repair {
    pub certificate: Certificate,
    pub plan: Option<Starts>,
}

/// Looks for a plan with few changes from old starts, with so many turns for a descent and for a search.
pub fn make_repair<R: Row>(
    alloc: Global,
    inst: &Instance,
    old: &[Option<u32>],
    opening: &[u32],
    turns: u32,
) -> Result<Repair, AllocError>
    requires opening { IsKeptOpening inst.now old.now opening.now }
    ensures { IfOk result (IsMadeRepair inst.now old.now turns) }
{
    inst.fits();
    bounds_count_changes();
    old_starts_are_no_changes();
    let goal = ChangeGoal::make(alloc, old)?;
    valid_bounds_plans(&goal);
    let given = incumbent_of::<R>(alloc, inst, old, opening, turns)?;
    let answer = search(alloc, &goal, inst, None, lent(inst, &given), turns)?;
    let plan = given_back(alloc, inst, old, &answer.best)?;
    let TreeEnd {
        cert,
        best: _,
        unfinished: _,
    } = answer;
    Ok(Repair {
        certificate: cert,
        plan,
    })
}

/// The starts of a feasible plan, if there is one.
fn lent<'a>(inst: &Instance, starts: &'a Option<Starts>) -> Option<&'a [u32]>
    requires { IfSome starts.now (IsFeasiblePlan inst.now) }
    ensures starts { option_map (λ lent. lent.now) result ≡ starts.now }
    ensures plan { IfSome result (λ lent. IsFeasiblePlan inst.now lent.now) }
{
    let _inst = inst;
    match starts {
        Some(starts) => Some(starts.as_slice()),
        None => None,
    }
}

/// What a plan gives back, if there is one.
fn given_back(
    alloc: Global,
    inst: &Instance,
    old: &[Option<u32>],
    best: &Option<Starts>,
) -> Result<Option<Starts>, AllocError>
    requires { IfSome best.now (IsFeasiblePlan inst.now) }
    ensures { IfOk result (IsBackOf inst.now old.now best.now) }
{
    match best {
        None => Ok(None),
        Some(best) => {
            let plan = give_back(alloc, inst, old, best.as_slice())?;
            Ok(Some(plan))
        }
    }
}
