//! The end of a descent.
ghost use Rattle.std.specs.Prelude.{◌≡◌, ◌↔◌, map, Some, IsTrue, IfOk};
ghost use Rattle.instance_model.specs.Plans.{AreAllowedStarts};
ghost use Rattle.instance_model.specs.Rules.{IsFeasible};
ghost use Rattle.plan_moves.specs.KeptPlans.{present};
ghost use Rattle.local_search.specs.Ends.{IsDescended};

use crate::descent::descend;
use instance_model::{Instance, Starts};
use plan_moves::{Kept, Moves};
use quantile_index::Row;
use std::alloc::{AllocError, Global};

/// What a descent from a plan came to.
#[derive(Drop)]
pub struct Descended {
    pub moves: Moves,
    /// The plan at which it ended.
    pub starts: Starts,
    /// Whether that plan keeps the rules.
    pub feasible: bool,
}

/// Descends from a plan with so many turns. What is kept for the descent is let go at its end.
pub fn descend_from<R: Row>(
    alloc: Global,
    inst: &Instance,
    opening: &[u32],
    turns: u32,
) -> Result<Descended, AllocError>
    requires { AreAllowedStarts inst.now opening.now }
    ensures { IfOk result (IsDescended inst.now turns opening.now) }
{
    let mut kept = Kept::<R>::make(alloc, inst, opening)?;
    let descent = descend(alloc, &mut kept, turns)?;
    kept.allowed();
    let starts = present_starts(alloc, inst, &kept)?;
    Ok(Descended {
        moves: descent.moves,
        starts,
        feasible: is_feasible(inst, &kept),
    })
}

/// Whether the present plan keeps the rules.
pub fn is_feasible<R: Row>(inst: &Instance, kept: &Kept<'_, R>) -> bool
    requires { kept.now.instance ≡ inst.now }
    ensures { IsTrue result ↔ IsFeasible inst.now (map Some (present kept.now.plans)) }
{
    kept.allowed();
    inst.no_violation_means_feasible();
    kept.key().violation == 0
}

/// The starts of the present plan.
pub fn present_starts<R: Row>(
    alloc: Global,
    inst: &Instance,
    kept: &Kept<'_, R>,
) -> Result<Starts, AllocError>
    requires { kept.now.instance ≡ inst.now }
    ensures { IfOk result (λ starts. starts ≡ present kept.now.plans) }
{
    kept.allowed();
    let mut starts = Vec::new(alloc);
    for i in 0..inst.interventions() {
        starts.push(kept.start_of(i))?;
    }
    Ok(Starts::from_vec(starts))
}
