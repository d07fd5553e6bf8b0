//! A plan that is changed and undone: contracts see the list of plans that its changes made.
ghost use Rattle.std.specs.Prelude.{◌≡◌, ◌+◌, ◌^◌, ◌<◌, ◌≤◌, ◌↔◌, max, [], ◌∷◌, length, swap, slice_index, slice_set};
ghost use Rattle.std.specs.Prelude.{unsigned_abs, IfOk, OnOk, OnErr, IfSome, IfNone, IsTrue};
ghost use Rattle.std.specs.Bool.{OnTrue, OnFalse};
ghost use Rattle.instance_model.specs.Tables.{is_allowed};
ghost use Rattle.instance_model.specs.Plans.{AreAllowedStarts};
ghost use Rattle.instance_model.specs.Keys.{KeyBelow};
ghost use Rattle.plan_moves.specs.Changing.{CanChange, after_change, changed_key};
ghost use Rattle.plan_moves.specs.KeptPlans.{AreKeptPlans, present, present_key, with_plan, without_present};
ghost use Rattle.plan_moves.specs.KeptPlans.{move_bound};

use crate::board::Board;
use crate::change::Change;
use fixed_num::Steps;
use instance_model::{Instance, Key};
use quantile_index::Row;
use std::alloc::{AllocError, Global};
use std::marker::Model;
use std::sync::ledger::Ledger;
use undo_trail::{Step, Trail};

/// The plans that an opening plan and its changes made, the present one last, with the key of the present one.
pub struct Kept<'a, R: Row> {
    board: Board<'a, R>,
    trail: Trail,
}

impl<'a, R: Row> Model for Kept<'a, R> {
    ghost use Rattle.plan_moves.specs.KeptPlans.{KeptPlans};
    ghost use Rattle.plan_moves.specs.Trails.{kept_of, IsTrailOf};

    ghost Value = { KeptPlans };

    ghost view = { λ k. kept_of k.board k.trail };

    ghost invariant = { λ k. IsTrailOf k.board.instance k.trail.0 k.board.starts };
}

/// A call, so that a proof doesn't go through all rows wherever the plans are dropped.
impl<'a, R: Row> Drop for Kept<'a, R> {
    fn drop(self) {
        let Kept { board: _, trail: _ } = self;
    }
}

impl<'a, R: Row> Kept<'a, R> {
    /// The opening plan alone. Takes memory, as no other call but `reserve` does.
    pub fn make(
        alloc: Global,
        inst: &'a Instance,
        starts: &[u32],
    ) -> Result<Kept<'a, R>, AllocError>
        requires { AreAllowedStarts inst.now starts.now }
        ensures { IfOk result (λ kept. kept ≡ record { instance = inst.now; plans = starts.now ∷ []; spare = 0 }) }
    {
        let board = Board::make(alloc, inst, starts)?;
        Ok(Kept {
            board,
            trail: Trail::make(alloc),
        })
    }

    /// Makes the spare `n`, where it was less. After a refusal everything is as before.
    pub fn reserve(&mut self, n: usize) -> Result<(), AllocError>
        ensures ok { OnOk result (self.new ≡ record self.old { spare = max self.old.spare n }) }
        ensures err { OnErr result (self.new ≡ self.old) }
    {
        self.trail.reserve(n)
    }

    /// How many more changes fit without memory.
    pub fn spare(&self) -> usize
        ensures { result ≡ self.now.spare }
    {
        self.trail.spare()
    }

    /// Changes the start of an intervention.
    pub fn move_start<L: Ledger>(&mut self, i: u32, s: u32, steps: &mut Steps<L>)
        requires number { i < length self.old.instance.names }
        requires allowed { IsTrue (is_allowed self.old.instance i s) }
        requires spare { 0 < self.old.spare }
        ensures plans { self.new ≡ with_plan (slice_set (present self.old.plans) i s) self.old }
        ensures cost { IfSome R.most (λ most. steps.new ≤ steps.old
            + move_bound self.old.instance most i (slice_index (present self.old.plans) i) s) }
        ensures forward { steps.old ≤ steps.new }
    {
        let from = self.board.set_start(i, s, steps);
        self.trail.push(Step::Move { i, from });
    }

    /// Exchanges the starts of two interventions, which may be one.
    pub fn swap<L: Ledger>(&mut self, i: u32, j: u32, steps: &mut Steps<L>)
        requires first { i < length self.old.instance.names }
        requires second { j < length self.old.instance.names }
        requires first_allowed { IsTrue (is_allowed self.old.instance i (slice_index (present self.old.plans) j)) }
        requires second_allowed { IsTrue (is_allowed self.old.instance j (slice_index (present self.old.plans) i)) }
        requires spare { 0 < self.old.spare }
        ensures plans { self.new ≡ with_plan (swap (present self.old.plans) i j) self.old }
        ensures forward { steps.old ≤ steps.new }
    {
        self.board.exchange(i, j, steps);
        self.trail.push(Step::Swap { i, j });
    }

    /// Makes a change: the plan after it becomes the present one.
    pub fn change<L: Ledger>(&mut self, change: Change, steps: &mut Steps<L>)
        requires can { CanChange self.old.instance (present self.old.plans) change }
        requires spare { 0 < self.old.spare }
        ensures plans { self.new ≡ with_plan (after_change change (present self.old.plans)) self.old }
        ensures forward { steps.old ≤ steps.new }
    {
        let back = self.board.change(change, steps);
        self.trail.push(back);
    }

    /// Takes the present plan off, unless it is the only one.
    pub fn undo<L: Ledger>(&mut self, steps: &mut Steps<L>) -> bool
        ensures undone { IsTrue result ↔ (1 < length self.old.plans) }
        ensures plans { OnTrue result (self.new ≡ without_present self.old) }
        ensures same { OnFalse result (self.new ≡ self.old) }
        ensures forward { steps.old ≤ steps.new }
    {
        match self.trail.pop() {
            Some(step) => {
                self.board.undo(step, steps);
                true
            }
            None => false,
        }
    }

    /// The key of the present plan.
    pub fn key(&self) -> Key
        ensures value { result ≡ present_key self.now.instance self.now.plans }
        ensures small { unsigned_abs result.score < 10 ^ 33 }
    {
        self.board.key()
    }

    /// The key of the present plan after a change, where it is below `limit`. Takes no memory.
    pub fn key_below<L: Ledger>(
        &mut self,
        change: Change,
        limit: Key,
        steps: &mut Steps<L>,
    ) -> Option<Key>
        requires { CanChange self.old.instance (present self.old.plans) change }
        ensures value { IfSome result (λ key. key ≡ changed_key self.old change) }
        ensures below { IfSome result (λ key. KeyBelow key limit) }
        ensures none { IfNone result (¬ KeyBelow (changed_key self.old change) limit) }
        ensures same { self.new ≡ self.old }
        ensures forward { steps.old ≤ steps.new }
    {
        self.board.key_below(change, limit, steps)
    }

    /// Whether a change lowers the key. Takes no memory.
    pub fn lowers<L: Ledger>(&mut self, change: Change, steps: &mut Steps<L>) -> bool
        requires { CanChange self.old.instance (present self.old.plans) change }
        ensures value { IsTrue result
            ↔ KeyBelow (changed_key self.old change) (present_key self.old.instance self.old.plans) }
        ensures same { self.new ≡ self.old }
        ensures forward { steps.old ≤ steps.new }
    {
        self.board.lowers(change, steps)
    }

    /// The start of intervention `i` in the present plan.
    pub fn start_of(&self, i: u32) -> u32
        requires { i < length self.now.instance.names }
        ensures value { result ≡ slice_index (present self.now.plans) i }
        ensures allowed { IsTrue (is_allowed self.now.instance i result) }
    {
        self.board.start_of(i)
    }

    /// The instance over which it was made.
    pub fn instance(&self) -> &'a Instance
        ensures { result.now ≡ self.now.instance }
    {
        self.board.instance()
    }

    /// There is a plan, and each has allowed starts. Does nothing: the contract is the law.
    pub fn allowed(&self)
        ensures { AreKeptPlans self.now }
    {
        let _ = &self.trail;
    }
}
