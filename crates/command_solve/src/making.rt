//! What a descent, a price list and a search make of an instance.
ghost use Rattle.std.specs.Prelude.{◌≤◌, IfOk};
ghost use Rattle.instance_model.specs.Keys.{IsOpening};
ghost use Rattle.command_solve.specs.Made.{IsMade};

use branch_search::{TreeEnd, given_end, search};
use certificate_text::texts_are_short;
use instance_model::Instance;
use lagrange_bound::{RiskGoal, worth_bounds_plans};
use local_search::descend_from;
use plan_moves::Moves;
use price_ladder::raise_prices;
use quantile_index::Row;
use std::alloc::{AllocError, Global};

/// The changes of a descent, and the answer of a search from its end.
#[derive(Drop)]
pub(crate) struct Made {
    pub moves: Moves,
    pub answer: TreeEnd,
}

/// Descends from the opening plan, raises prices for the end, and searches with them.
pub(crate) fn make<R: Row>(
    alloc: Global,
    inst: &Instance,
    opening: &[u32],
    turns: u32,
) -> Result<Made, AllocError>
    requires opening { IsOpening inst.now opening.now }
    requires turns { turns ≤ 1_000_000 }
    ensures { IfOk result (λ made. IsMade inst.now turns made.moves made.answer) }
{
    inst.fits();
    texts_are_short();
    worth_bounds_plans(&RiskGoal);
    let descended = descend_from::<R>(alloc, inst, opening, turns)?;
    let prices = raise_prices(alloc, inst, descended.starts.as_slice())?;
    let answer = search(
        alloc,
        &RiskGoal,
        inst,
        Some(&prices),
        given_end(inst, &descended.starts, descended.feasible),
        turns,
    )?;
    Ok(Made {
        moves: descended.moves,
        answer,
    })
}
