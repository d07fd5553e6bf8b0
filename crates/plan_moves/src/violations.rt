//! The starts of a plan with what they violate: contracts see the instance and the starts.
ghost use Rattle.std.specs.Prelude.{◌≡◌, ◌+◌, ◌*◌, ◌^◌, ◌<◌, ◌≤◌, pos, ◌+ℤ◌, unsigned_abs, length, map, Some, IfOk};
ghost use Rattle.std.specs.Prelude.{◌<ℤ◌, ◌≤ℤ◌, IfSome, IfNone, IsSome, IsTrue, slice_index, slice_set, swap};
ghost use Rattle.instance_model.specs.Tables.{is_allowed};
ghost use Rattle.instance_model.specs.Plans.{AreAllowedStarts, start_of};
ghost use Rattle.instance_model.specs.Keys.{violation_of};
ghost use Rattle.resource_bands.specs.BoardLoads.{IsOver as AreLoadsOver};
ghost use Rattle.plan_moves.specs.Changing.{CanChange, after_change};
ghost use Rattle.plan_moves.specs.Trails.{undone, step_back, NamesBelow};

use crate::change::Change;
use instance_model::Instance;
use resource_bands::{Loads, StartChange};
use season_exclusion::Clashes;
use std::alloc::{AllocError, Global};
use std::marker::Model;
use undo_trail::Step;

/// How many counts of 10^-12 make 1.
const COUNTS_PER_ONE: u64 = 1_000_000_000_000;

/// The starts of a plan, with the loads and the broken exclusions that they make.
#[derive(Drop)]
pub(crate) struct Violations<'a> {
    inst: &'a Instance,
    starts: Vec<u32>,
    loads: Loads,
    clashes: Clashes,
}

impl<'a> Model for Violations<'a> {
    ghost use Rattle.plan_moves.specs.Boards as boards;

    ghost Value = { boards.Board };

    ghost view = { λ v. record { instance = v.inst.now; starts = v.starts.items } };

    ghost invariant = { λ v. boards.AreViolationsOf v.inst.now v.starts.items v.loads v.clashes };
}

/// Takes the loads of intervention `i` off board, and puts them on again at start `s`.
fn move_load(loads: &mut Loads, inst: &Instance, i: u32, s: u32)
    requires over { AreLoadsOver inst.now loads.old }
    requires number { i < length inst.now.names }
    requires on_board { IsSome (start_of loads.old.board i) }
    requires allowed { IsTrue (is_allowed inst.now i s) }
    ensures over { AreLoadsOver inst.now loads.new }
    ensures board { loads.new.board ≡ slice_set loads.old.board i (Some s) }
{
    loads.take_run(inst, i);
    loads.add_run(inst, i, s);
}

/// The start of intervention `i` is changed.
fn start_change(i: u32, from: u32, to: u32) -> StartChange
    ensures { result ≡ record { i = i; from = from; to = to } }
{
    StartChange { i, from, to }
}

/// The violation, in counts of 10^-12: a broken exclusion counts as much as a load that is 1 outside its limits.
fn total_violation(gaps: i128, broken: u64) -> i128
    requires gaps { unsigned_abs gaps < 10 ^ 37 }
    requires broken { broken ≤ 65_536 }
    ensures value { result ≡ gaps +ℤ pos (1_000_000_000_000 * broken) }
    ensures small { unsigned_abs result < 2 * 10 ^ 37 }
{
    gaps + i128::from(COUNTS_PER_ONE * broken)
}

impl<'a> Violations<'a> {
    /// Takes memory, as no other call does.
    pub(crate) fn make(
        alloc: Global,
        inst: &'a Instance,
        starts: &[u32],
    ) -> Result<Violations<'a>, AllocError>
        requires { AreAllowedStarts inst.now starts.now }
        ensures { IfOk result (λ made. made ≡ record { instance = inst.now; starts = starts.now }) }
    {
        let loads = Loads::make(alloc, inst, starts)?;
        let clashes = Clashes::make(alloc, inst, starts)?;
        let starts = starts.to_vec(alloc)?;
        Ok(Violations {
            inst,
            starts,
            loads,
            clashes,
        })
    }

    pub(crate) fn instance(&self) -> &'a Instance
        ensures { result.now ≡ self.now.instance }
    {
        self.inst
    }

    /// The starts are allowed.
    pub(crate) fn allowed(&self)
        ensures { AreAllowedStarts self.now.instance self.now.starts }
    {
        let _ = &self.starts;
    }

    /// The start of intervention `i`.
    pub(crate) fn start_of(&self, i: u32) -> u32
        requires { i < length self.now.instance.names }
        ensures within { i < length self.now.starts }
        ensures value { result ≡ slice_index self.now.starts i }
        ensures allowed { IsTrue (is_allowed self.now.instance i result) }
    {
        self.starts[i as usize]
    }

    /// How far the starts are from the rules, in counts of 10^-12.
    pub(crate) fn violation(&self) -> i128
        ensures value { result ≡ violation_of self.now.instance (map Some self.now.starts) }
        ensures small { unsigned_abs result < 2 * 10 ^ 37 }
    {
        self.inst.fits();
        total_violation(self.loads.violation(), self.clashes.count())
    }

    /// Changes the start of intervention `i`, and what is kept of it.
    pub(crate) fn set_start(&mut self, i: u32, s: u32)
        requires number { i < length self.old.instance.names }
        requires allowed { IsTrue (is_allowed self.old.instance i s) }
        ensures { self.new ≡ record self.old { starts = slice_set self.old.starts i s } }
    {
        move_load(&mut self.loads, self.inst, i, s);
        self.starts[i as usize] = s;
        self.clashes.reset_for(self.inst, i, self.starts.as_slice());
    }

    /// Exchanges the starts of two interventions, which may be one.
    fn exchange(&mut self, i: u32, j: u32)
        requires first { i < length self.old.instance.names }
        requires second { j < length self.old.instance.names }
        requires first_allowed { IsTrue (is_allowed self.old.instance i (slice_index self.old.starts j)) }
        requires second_allowed { IsTrue (is_allowed self.old.instance j (slice_index self.old.starts i)) }
        ensures { self.new ≡ record self.old { starts = swap self.old.starts i j } }
    {
        let first = self.start_of(i);
        let second = self.start_of(j);
        self.set_start(i, second);
        self.set_start(j, first);
    }

    /// Makes a change; the answer is the step back.
    fn change(&mut self, change: Change) -> Step
        requires { CanChange self.old.instance self.old.starts change }
        ensures starts { self.new ≡ record self.old { starts = after_change change self.old.starts } }
        ensures back { result ≡ step_back change self.old.starts }
    {
        match change {
            Change::Move { i, s } => {
                let from = self.start_of(i);
                self.set_start(i, s);
                Step::Move { i, from }
            }
            Change::Swap { i, j } => {
                self.exchange(i, j);
                Step::Swap { i, j }
            }
        }
    }

    /// Takes a step back.
    fn undo(&mut self, step: Step)
        requires named { NamesBelow (length self.old.instance.names) step }
        requires allowed { AreAllowedStarts self.old.instance (undone step self.old.starts) }
        ensures { self.new ≡ record self.old { starts = undone step self.old.starts } }
    {
        match step {
            Step::Move { i, from } => self.set_start(i, from),
            Step::Swap { i, j } => self.exchange(i, j),
        }
    }

    /// The violation after a change, which is made and taken back.
    fn after(&mut self, change: Change) -> i128
        requires { CanChange self.old.instance self.old.starts change }
        ensures value { result ≡ violation_of self.old.instance (map Some (after_change change self.old.starts)) }
        ensures small { unsigned_abs result < 2 * 10 ^ 37 }
        ensures same { self.new ≡ self.old }
    {
        self.allowed();
        let back = self.change(change);
        let violation = self.violation();
        self.undo(back);
        violation
    }

    /// Whether one load alone makes the violation more than `limit` after intervention `i` has got start `s`. Where the
    /// answer is no it may be more as well.
    fn is_above_moved(&self, i: u32, s: u32, limit: i128) -> bool
        requires number { i < length self.now.instance.names }
        requires allowed { IsTrue (is_allowed self.now.instance i s) }
        ensures { IsTrue result
            → limit <ℤ violation_of self.now.instance (map Some (slice_set self.now.starts i s)) }
    {
        let one = start_change(i, self.start_of(i), s);
        self.loads.is_above_after(self.inst, one, one, limit)
    }

    /// The same after the starts of two interventions, which may be one, are exchanged.
    fn is_above_exchanged(&self, i: u32, j: u32, limit: i128) -> bool
        requires first { i < length self.now.instance.names }
        requires second { j < length self.now.instance.names }
        requires first_allowed { IsTrue (is_allowed self.now.instance i (slice_index self.now.starts j)) }
        requires second_allowed { IsTrue (is_allowed self.now.instance j (slice_index self.now.starts i)) }
        ensures { IsTrue result → limit <ℤ violation_of self.now.instance (map Some (swap self.now.starts i j)) }
    {
        let first = self.start_of(i);
        let second = self.start_of(j);
        let one = start_change(i, first, second);
        let other = start_change(j, second, first);
        self.loads.is_above_after(self.inst, one, other, limit)
    }

    /// Whether one load alone makes the violation more than `limit` after a change. Where the answer is no it may be
    /// more as well.
    fn is_above(&self, change: Change, limit: i128) -> bool
        requires { CanChange self.now.instance self.now.starts change }
        ensures { IsTrue result
            → limit <ℤ violation_of self.now.instance (map Some (after_change change self.now.starts)) }
    {
        match change {
            Change::Move { i, s } => self.is_above_moved(i, s, limit),
            Change::Swap { i, j } => self.is_above_exchanged(i, j, limit),
        }
    }

    /// The violation after a change, where it is at most `limit`. The change is made and taken back, unless one load
    /// alone tells that it is more.
    pub(crate) fn after_within(&mut self, change: Change, limit: i128) -> Option<i128>
        requires { CanChange self.old.instance self.old.starts change }
        ensures value { IfSome result
            (λ v. v ≡ violation_of self.old.instance (map Some (after_change change self.old.starts))) }
        ensures within { IfSome result (λ v. v ≤ℤ limit) }
        ensures small { IfSome result (λ v. unsigned_abs v < 2 * 10 ^ 37) }
        ensures none { IfNone result
            (limit <ℤ violation_of self.old.instance (map Some (after_change change self.old.starts))) }
        ensures same { self.new ≡ self.old }
    {
        if self.is_above(change, limit) {
            return None;
        }
        let violation = self.after(change);
        if violation <= limit {
            Some(violation)
        } else {
            None
        }
    }
}
