//! All changes of a kept plan are undone.
ghost use Rattle.std.specs.Prelude.{◌≡◌, ◌+◌, length, take};

use fixed_num::Steps;
use plan_moves::Kept;
use quantile_index::Row;
use std::marker::Brand;
use std::sync::ledger::{Blank, Ledger};

/// Undoes so many changes, which are all that were made: the first plan is left.
pub(crate) fn undo_all<R: Row>(kept: &mut Kept<'_, R>, changes: usize)
    requires all { length kept.old.plans ≡ changes + 1 }
    ensures instance { kept.new.instance ≡ kept.old.instance }
    ensures first { kept.new.plans ≡ take 1 kept.old.plans }
{
    undo_on::<R, Brand>(kept, changes, Blank::new(1));
}

/// The same, with its steps counted on the ledger that the blank becomes.
fn undo_on<R: Row, L: Ledger>(kept: &mut Kept<'_, R>, changes: usize, blank: Blank)
    requires name { blank.name ≡ L.name }
    requires parts { blank.parts ≡ L.parts }
    requires one { blank.parts ≡ 1 }
    requires all { length kept.old.plans ≡ changes + 1 }
    ensures instance { kept.new.instance ≡ kept.old.instance }
    ensures first { kept.new.plans ≡ take 1 kept.old.plans }
{
    let mut steps = Steps::<L>::zero(blank);
    for _change in 0..changes {
        kept.undo(&mut steps);
    }
}
