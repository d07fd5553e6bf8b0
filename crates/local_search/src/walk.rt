//! A walk to a given plan, by changes that each lower the key.
ghost use Rattle.std.specs.Prelude.{◌<◌, ◌≤◌, ◌↔◌, length, IsTrue};
ghost use Rattle.instance_model.specs.Tables.{is_allowed};
ghost use Rattle.instance_model.specs.Plans.{AreAllowedStarts};
ghost use Rattle.local_search.specs.Progress.{LeadsTo};

use crate::progress::Progress;
use plan_moves::{Change, Kept};
use quantile_index::Row;
use std::sync::ledger::Ledger;

/// Gives intervention `i` the start `s`, where that lowers the key.
fn try_start<R: Row, L: Ledger>(kept: &mut Kept<'_, R>, progress: &mut Progress<L>, i: u32, s: u32)
    requires number { i < length kept.old.instance.names }
    requires allowed { IsTrue (is_allowed kept.old.instance i s) }
    requires room { progress.old.left ≤ kept.old.spare }
    ensures { LeadsTo kept.old progress.old kept.new progress.new }
{
    if s != kept.start_of(i) {
        progress.try_change(kept, Change::Move { i, s });
    }
}

/// Gives each intervention in turn its start in `target`, where that lowers the key. Tells whether a change was made.
fn walk_once<R: Row, L: Ledger>(
    kept: &mut Kept<'_, R>,
    progress: &mut Progress<L>,
    target: &[u32],
) -> bool
    requires target { AreAllowedStarts kept.old.instance target.now }
    requires room { progress.old.left ≤ kept.old.spare }
    ensures leads { LeadsTo kept.old progress.old kept.new progress.new }
    ensures made { IsTrue result ↔ (progress.new.left < progress.old.left) }
{
    let left = progress.left();
    for i in 0..kept.instance().interventions() {
        try_start(kept, progress, i, target[i as usize]);
    }
    progress.left() < left
}

/// Walks towards `target`, until no start of it lowers the key or no turn is left.
pub(crate) fn walk<R: Row, L: Ledger>(
    kept: &mut Kept<'_, R>,
    progress: &mut Progress<L>,
    target: &[u32],
)
    requires target { AreAllowedStarts kept.old.instance target.now }
    requires room { progress.old.left ≤ kept.old.spare }
    ensures { LeadsTo kept.old progress.old kept.new progress.new }
{
    while walk_once(kept, progress, target) {}
}
