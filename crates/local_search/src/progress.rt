//! How far a descent has come: the one place where it makes changes.
ghost use Rattle.std.specs.Prelude.{◌≡◌, ◌+◌, ◌<◌, ◌≤◌, ◌↔◌, [], IfOk, IsTrue};
ghost use Rattle.std.specs.Bool.{OnFalse};
ghost use Rattle.plan_moves.specs.Changing.{CanChange};
ghost use Rattle.plan_moves.specs.KeptPlans.{present};

use fixed_num::Steps;
use plan_moves::{Change, Kept, Moves};
use quantile_index::Row;
use std::alloc::{AllocError, Global};
use std::marker::Model;
use std::sync::ledger::{Blank, Ledger};

/// The changes made so far, how many more may be made, and the counter of their steps.
#[derive(Drop)]
pub(crate) struct Progress<L: Ledger> {
    changes: Vec<Change>,
    left: u32,
    pub(crate) steps: Steps<L>,
}

impl<L: Ledger> Model for Progress<L> {
    ghost use Rattle.std.specs.Prelude.{◌+◌, ◌≤◌, vec_len, vec_capacity};
    ghost use Rattle.local_search.specs.Progress.{Made};

    ghost Value = { Made };

    ghost view = { λ p. record { changes = p.changes.items; left = p.left } };

    ghost invariant = { λ p. vec_len p.changes + p.left ≤ vec_capacity p.changes };
}

impl<L: Ledger> Progress<L> {
    ghost use Rattle.local_search.specs.Progress.{LeadsTo, LowersNot};

    /// No change yet, and room for `turns` of them. Takes memory, as no other call does.
    pub(crate) fn make(alloc: Global, turns: u32, blank: Blank) -> Result<Progress<L>, AllocError>
        requires name { blank.name ≡ L.name }
        requires parts { blank.parts ≡ L.parts }
        requires one { blank.parts ≡ 1 }
        ensures { IfOk result (λ made. made ≡ record { changes = []; left = turns }) }
    {
        let changes = Vec::with_capacity(alloc, turns as usize)?;
        Ok(Progress {
            changes,
            left: turns,
            steps: Steps::zero(blank),
        })
    }

    /// How many more changes may be made.
    pub(crate) fn left(&self) -> u32
        ensures { result ≡ self.now.left }
    {
        self.left
    }

    /// Makes a change where it lowers the key and a turn is left: each change of a descent is made here.
    pub(crate) fn try_change<R: Row>(&mut self, kept: &mut Kept<'_, R>, change: Change) -> bool
        requires can { CanChange kept.old.instance (present kept.old.plans) change }
        requires room { self.old.left ≤ kept.old.spare }
        ensures leads { LeadsTo kept.old self.old kept.new self.new }
        ensures made { IsTrue result ↔ (self.new.left + 1 ≡ self.old.left) }
        ensures same_kept { OnFalse result (kept.new ≡ kept.old) }
        ensures same { OnFalse result (self.new ≡ self.old) }
        ensures none { OnFalse result
            (0 < self.old.left → LowersNot kept.old.instance (present kept.old.plans) change) }
    {
        if self.left == 0 || !kept.lowers(change, &mut self.steps) {
            return false;
        }
        kept.allowed();
        kept.change(change, &mut self.steps);
        match self.changes.push(change) {
            Ok(()) => {}
            Err(_) => unreachable!(),
        }
        self.left -= 1;
        true
    }

    /// The changes made.
    pub(crate) fn into_moves(self) -> Moves
        ensures { result ≡ self.changes }
    {
        let Progress {
            changes,
            left: _,
            steps: _,
        } = self;
        Moves::from_vec(changes)
    }
}
