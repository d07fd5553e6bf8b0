//! The descent from a kept plan.
ghost use Rattle.std.specs.Prelude.{◌≡◌, ◌<◌, ◌≤◌, IfOk, OnErr};
ghost use Rattle.instance_model.specs.Plans.{AreAllowedStarts};
ghost use Rattle.plan_moves.specs.KeptPlans.{present};
ghost use Rattle.local_search.specs.Descents.{IsDescent, IsLocalOptimum};
ghost use Rattle.local_search.specs.Progress.{LeadsTo};

use crate::progress::Progress;
use crate::rounds::settle;
use crate::target::target_of;
use crate::walk::walk;
use plan_moves::{Kept, Moves};
use quantile_index::Row;
use std::alloc::{AllocError, Global};
use std::marker::Brand;
use std::sync::ledger::{Blank, Ledger};

/// What a descent made: its changes in order, and whether it stopped because no turn was left.
#[derive(Drop)]
pub struct Descent {
    pub moves: Moves,
    pub spent: bool,
}

/// Changes the present plan to neighbours of strictly lower key, at most `turns` times, until none is left. Takes all
/// its memory first: room for `turns` changes.
pub fn descend<R: Row>(
    alloc: Global,
    kept: &mut Kept<'_, R>,
    turns: u32,
) -> Result<Descent, AllocError>
    ensures ok { IfOk result (λ descent. IsDescent kept.old kept.new turns descent.moves descent.spent) }
    ensures err { OnErr result (kept.new ≡ kept.old) }
{
    descend_on::<R, Brand>(alloc, kept, turns, Blank::new(1))
}

/// Walks to the target, as far as that lowers the key, and tries rounds from there.
fn descend_by<R: Row, L: Ledger>(kept: &mut Kept<'_, R>, progress: &mut Progress<L>, target: &[u32])
    requires target { AreAllowedStarts kept.old.instance target.now }
    requires room { progress.old.left ≤ kept.old.spare }
    ensures leads { LeadsTo kept.old progress.old kept.new progress.new }
    ensures none { 0 < progress.new.left → IsLocalOptimum kept.new.instance (present kept.new.plans) }
{
    walk(kept, progress, target);
    settle(kept, progress);
}

/// The same, with its steps counted on the ledger that the blank becomes.
fn descend_on<R: Row, L: Ledger>(
    alloc: Global,
    kept: &mut Kept<'_, R>,
    turns: u32,
    blank: Blank,
) -> Result<Descent, AllocError>
    requires name { blank.name ≡ L.name }
    requires parts { blank.parts ≡ L.parts }
    requires one { blank.parts ≡ 1 }
    ensures ok { IfOk result (λ descent. IsDescent kept.old kept.new turns descent.moves descent.spent) }
    ensures err { OnErr result (kept.new ≡ kept.old) }
{
    let mut progress = Progress::<L>::make(alloc, turns, blank)?;
    let target = target_of(alloc, kept, turns)?;
    kept.reserve(turns as usize)?;
    descend_by(kept, &mut progress, target.as_slice());
    let spent = progress.left() == 0;
    Ok(Descent {
        moves: progress.into_moves(),
        spent,
    })
}
