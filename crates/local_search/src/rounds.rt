//! Rounds over all neighbours, until a whole one finds none of lower key.
ghost use Rattle.std.specs.Prelude.{ℕ, ◌<◌, ◌≤◌, ◌↔◌, length, IsTrue};
ghost use Rattle.std.specs.Bool.{OnFalse};
ghost use Rattle.plan_moves.specs.KeptPlans.{present};
ghost use Rattle.local_search.specs.Descents.{IsLocalOptimum};
ghost use Rattle.local_search.specs.Progress.{LeadsTo, IfStill, NoStartLowers, NoSwapLowers};

use crate::best::best_start;
use crate::exchange::try_swaps;
use crate::progress::Progress;
use plan_moves::{Change, Kept};
use quantile_index::Row;
use std::sync::ledger::Ledger;

/// Gives intervention `i` its best start, where that lowers the key.
fn try_best_start<R: Row, L: Ledger>(kept: &mut Kept<'_, R>, progress: &mut Progress<L>, i: u32)
    requires number { i < length kept.old.instance.names }
    requires room { progress.old.left ≤ kept.old.spare }
    ensures leads { LeadsTo kept.old progress.old kept.new progress.new }
    ensures none { IfStill progress.old progress.new (NoStartLowers kept.new i) }
{
    if progress.left() > 0 {
        if let Some(s) = best_start(kept, i, &mut progress.steps) {
            progress.try_change(kept, Change::Move { i, s });
        }
    }
}

/// Gives each intervention in turn its best start.
fn try_best_starts<R: Row, L: Ledger>(kept: &mut Kept<'_, R>, progress: &mut Progress<L>)
    requires { progress.old.left ≤ kept.old.spare }
    ensures leads { LeadsTo kept.old progress.old kept.new progress.new }
    ensures none { IfStill progress.old progress.new
        ((i : ℕ) → i < length kept.new.instance.names → NoStartLowers kept.new i) }
{
    for i in 0..kept.instance().interventions() {
        try_best_start(kept, progress, i);
    }
}

/// Tries the exchanges of each two interventions.
fn try_all_swaps<R: Row, L: Ledger>(kept: &mut Kept<'_, R>, progress: &mut Progress<L>)
    requires { progress.old.left ≤ kept.old.spare }
    ensures leads { LeadsTo kept.old progress.old kept.new progress.new }
    ensures none { IfStill progress.old progress.new
        ((i : ℕ) → i < length kept.new.instance.names → NoSwapLowers kept.new i) }
{
    for i in 0..kept.instance().interventions() {
        try_swaps(kept, progress, i);
    }
}

/// One round: the best starts, and where they change nothing the exchanges. Tells whether a change was made.
fn round<R: Row, L: Ledger>(kept: &mut Kept<'_, R>, progress: &mut Progress<L>) -> bool
    requires { progress.old.left ≤ kept.old.spare }
    ensures leads { LeadsTo kept.old progress.old kept.new progress.new }
    ensures made { IsTrue result ↔ (progress.new.left < progress.old.left) }
    ensures none { OnFalse result (0 < progress.new.left → IsLocalOptimum kept.new.instance (present kept.new.plans)) }
{
    let left = progress.left();
    try_best_starts(kept, progress);
    if progress.left() == left {
        try_all_swaps(kept, progress);
    }
    kept.allowed();
    progress.left() < left
}

/// Rounds until one makes no change: then no neighbour has a lower key, or no turn is left.
pub(crate) fn settle<R: Row, L: Ledger>(kept: &mut Kept<'_, R>, progress: &mut Progress<L>)
    requires { progress.old.left ≤ kept.old.spare }
    ensures leads { LeadsTo kept.old progress.old kept.new progress.new }
    ensures none { 0 < progress.new.left → IsLocalOptimum kept.new.instance (present kept.new.plans) }
{
    while round(kept, progress) {}
}
