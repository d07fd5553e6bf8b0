//! Exchanges of the starts of two interventions.
ghost use Rattle.std.specs.Prelude.{◌<◌, ◌≤◌, length};
ghost use Rattle.plan_moves.specs.declared.change.Change.{Change};
ghost use Rattle.plan_moves.specs.KeptPlans.{present};
ghost use Rattle.local_search.specs.Progress.{LeadsTo, LowersNot, IfStill, NoSwapLowers};

use crate::progress::Progress;
use plan_moves::{Change, Kept};
use quantile_index::Row;
use std::sync::ledger::Ledger;

/// Exchanges the starts of two interventions where that lowers the key. Equal starts, and starts that aren't allowed,
/// aren't judged.
fn try_swap<R: Row, L: Ledger>(kept: &mut Kept<'_, R>, progress: &mut Progress<L>, i: u32, j: u32)
    requires first { i < length kept.old.instance.names }
    requires second { j < length kept.old.instance.names }
    requires room { progress.old.left ≤ kept.old.spare }
    ensures leads { LeadsTo kept.old progress.old kept.new progress.new }
    ensures none { IfStill progress.old progress.new
        (LowersNot kept.new.instance (present kept.new.plans) (Change.Swap i j)) }
{
    kept.allowed();
    let inst = kept.instance();
    let first = kept.start_of(i);
    let second = kept.start_of(j);
    if first != second && inst.allowed(i, second) && inst.allowed(j, first) {
        progress.try_change(kept, Change::Swap { i, j });
    }
}

/// Tries the exchanges of intervention `i` with each one behind it.
pub(crate) fn try_swaps<R: Row, L: Ledger>(
    kept: &mut Kept<'_, R>,
    progress: &mut Progress<L>,
    i: u32,
)
    requires number { i < length kept.old.instance.names }
    requires room { progress.old.left ≤ kept.old.spare }
    ensures leads { LeadsTo kept.old progress.old kept.new progress.new }
    ensures none { IfStill progress.old progress.new (NoSwapLowers kept.new i) }
{
    let count = kept.instance().interventions();
    for j in i + 1..count {
        try_swap(kept, progress, i, j);
    }
}
