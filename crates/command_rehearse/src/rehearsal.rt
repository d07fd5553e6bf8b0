//! A descent from the opening plan, a bound from its end, and back.
ghost use Rattle.std.specs.Prelude.{IfOk};
ghost use Rattle.instance_model.specs.Keys.{IsOpening};
ghost use Rattle.command_rehearse.specs.Rehearsed.{IsRehearsed};

use crate::bounding::bound_from;
use crate::summary::Summary;
use crate::undoing::undo_all;
use branch_search::split_count;
use instance_model::Instance;
use local_search::descend;
use plan_moves::Kept;
use quantile_index::Row;
use std::alloc::{AllocError, Global};

/// How many turns the descent has, and how many the search.
pub(crate) const TURNS: u32 = 40;

/// Descends from the opening plan, searches for a certificate from the end of that, and undoes all changes. Plans are
/// kept over rows of this kind.
pub(crate) fn rehearse<R: Row>(
    alloc: Global,
    inst: &Instance,
    opening: &[u32],
) -> Result<Summary, AllocError>
    requires { IsOpening inst.now opening.now }
    ensures { IfOk result (IsRehearsed inst.now) }
{
    inst.no_violation_means_feasible();
    let mut kept = Kept::<R>::make(alloc, inst, opening)?;
    let opened = kept.key();
    let descent = descend(alloc, &mut kept, TURNS)?;
    kept.allowed();
    let descended = kept.key();
    let answer = bound_from(alloc, inst, &kept)?;
    let changes = descent.moves.as_slice().len();
    undo_all(&mut kept, changes);
    Ok(Summary {
        interventions: inst.interventions() as u64,
        opening: opened,
        descent: descended,
        moves: changes as u64,
        undone: kept.key(),
        bound: answer.cert.bound,
        splits: split_count(answer.cert.nodes.as_slice()),
        rounded: inst.rounded(),
    })
}
