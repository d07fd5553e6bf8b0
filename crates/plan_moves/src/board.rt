//! The starts of a plan with all that is kept of them: contracts see the instance and the starts.
ghost use Rattle.std.specs.Prelude.{◌≡◌, ◌+◌, ◌^◌, ◌<◌, ◌≤◌, ◌↔◌, ◌<ℤ◌, ◌≤ℤ◌, unsigned_abs, length, map, Some, IfOk};
ghost use Rattle.std.specs.Prelude.{IfSome};
ghost use Rattle.std.specs.Prelude.{IfNone, IsSome, IsTrue, slice_index, slice_set, swap};
ghost use Rattle.instance_model.specs.Tables.{is_allowed};
ghost use Rattle.instance_model.specs.Plans.{AreAllowedStarts, start_of};
ghost use Rattle.instance_model.specs.Keys.{key_of, KeyBelow};
ghost use Rattle.instance_model.specs.Values.{score_of};
ghost use Rattle.scenario_rows.specs.RiskStates.{IsOver as AreRowsOver};
ghost use Rattle.scenario_rows.specs.declared.change.Change.TheVariants.{Add, Take};
ghost use Rattle.plan_moves.specs.Changing.{CanChange, after_change};
ghost use Rattle.plan_moves.specs.KeptPlans.{move_bound};
ghost use Rattle.plan_moves.specs.Trails.{undone, step_back, NamesBelow};

use crate::change::Change;
use crate::key_limit::score_limit;
use crate::violations::Violations;
use fixed_num::Steps;
use instance_model::{Instance, Key};
use quantile_index::Row;
use scenario_rows::{Change as OnBoard, RiskRows, RunChange};
use std::alloc::{AllocError, Global};
use std::marker::Model;
use std::sync::ledger::Ledger;
use undo_trail::Step;

/// The starts of a plan with what they violate, and with the scenario sums that they make.
#[derive(Drop)]
pub(crate) struct Board<'a, R: Row> {
    violations: Violations<'a>,
    rows: RiskRows<R>,
}

impl<'a, R: Row> Model for Board<'a, R> {
    ghost use Rattle.plan_moves.specs.Boards as boards;

    ghost Value = { boards.Board };

    ghost view = { λ b. b.violations };

    ghost invariant = { λ b. boards.AreRowsOf b.violations b.rows };
}

/// The run of intervention `i` at start `s` is taken off board.
fn taken(i: u32, s: u32) -> RunChange
    ensures { result ≡ record { change = Take; i = i; s = s } }
{
    RunChange {
        change: OnBoard::Take,
        i,
        s,
    }
}

/// The run of intervention `i` at start `s` is put on board.
fn added(i: u32, s: u32) -> RunChange
    ensures { result ≡ record { change = Add; i = i; s = s } }
{
    RunChange {
        change: OnBoard::Add,
        i,
        s,
    }
}

/// Takes the run of intervention `i` off board, and puts it on again at start `s`.
fn move_run<R: Row, L: Ledger>(
    rows: &mut RiskRows<R>,
    inst: &Instance,
    i: u32,
    s: u32,
    steps: &mut Steps<L>,
)
    requires over { AreRowsOver inst.now rows.old }
    requires number { i < length inst.now.names }
    requires on_board { IsSome (start_of rows.old.board i) }
    requires allowed { IsTrue (is_allowed inst.now i s) }
    ensures over { AreRowsOver inst.now rows.new }
    ensures board { rows.new.board ≡ slice_set rows.old.board i (Some s) }
    ensures cost { IfSome (start_of rows.old.board i) (λ old.
        IfSome R.most (λ most. steps.new ≤ steps.old + move_bound inst.now most i old s)) }
    ensures forward { steps.old ≤ steps.new }
{
    rows.take_run(inst, i, steps);
    rows.add_run(inst, i, s, steps);
}

impl<'a, R: Row> Board<'a, R> {
    /// Takes memory, as no other call does.
    pub(crate) fn make(
        alloc: Global,
        inst: &'a Instance,
        starts: &[u32],
    ) -> Result<Board<'a, R>, AllocError>
        requires { AreAllowedStarts inst.now starts.now }
        ensures { IfOk result (λ board. board ≡ record { instance = inst.now; starts = starts.now }) }
    {
        let rows = RiskRows::make(alloc, inst, starts)?;
        let violations = Violations::make(alloc, inst, starts)?;
        Ok(Board { violations, rows })
    }

    pub(crate) fn instance(&self) -> &'a Instance
        ensures { result.now ≡ self.now.instance }
    {
        self.violations.instance()
    }

    /// The start of intervention `i`.
    pub(crate) fn start_of(&self, i: u32) -> u32
        requires { i < length self.now.instance.names }
        ensures within { i < length self.now.starts }
        ensures value { result ≡ slice_index self.now.starts i }
        ensures allowed { IsTrue (is_allowed self.now.instance i result) }
    {
        self.violations.start_of(i)
    }

    /// The score of the starts.
    fn score(&self) -> i128
        ensures value { result ≡ score_of self.now.instance (map Some self.now.starts) }
        ensures small { unsigned_abs result < 10 ^ 33 }
    {
        self.instance().fits();
        self.rows.score()
    }

    /// The key of the starts.
    pub(crate) fn key(&self) -> Key
        ensures value { result ≡ key_of self.now.instance (map Some self.now.starts) }
        ensures small { unsigned_abs result.score < 10 ^ 33 }
    {
        Key {
            violation: self.violations.violation(),
            score: self.score(),
        }
    }

    /// Changes the start of intervention `i`, and what is kept of it.
    fn change_start<L: Ledger>(&mut self, i: u32, s: u32, steps: &mut Steps<L>)
        requires number { i < length self.old.instance.names }
        requires allowed { IsTrue (is_allowed self.old.instance i s) }
        ensures starts { self.new ≡ record self.old { starts = slice_set self.old.starts i s } }
        ensures cost { IfSome R.most (λ most. steps.new ≤ steps.old
            + move_bound self.old.instance most i (slice_index self.old.starts i) s) }
        ensures forward { steps.old ≤ steps.new }
    {
        move_run(&mut self.rows, self.violations.instance(), i, s, steps);
        self.violations.set_start(i, s);
    }

    /// Changes the start of intervention `i`; the answer is what it was. Does nothing where it is `s` already.
    pub(crate) fn set_start<L: Ledger>(&mut self, i: u32, s: u32, steps: &mut Steps<L>) -> u32
        requires number { i < length self.old.instance.names }
        requires allowed { IsTrue (is_allowed self.old.instance i s) }
        ensures within { i < length self.old.starts }
        ensures before { result ≡ slice_index self.old.starts i }
        ensures starts { self.new ≡ record self.old { starts = slice_set self.old.starts i s } }
        ensures cost { IfSome R.most (λ most. steps.new ≤ steps.old
            + move_bound self.old.instance most i (slice_index self.old.starts i) s) }
        ensures forward { steps.old ≤ steps.new }
    {
        let before = self.start_of(i);
        if before != s {
            self.change_start(i, s, steps);
        }
        before
    }

    /// Exchanges the starts of two interventions, which may be one.
    pub(crate) fn exchange<L: Ledger>(&mut self, i: u32, j: u32, steps: &mut Steps<L>)
        requires first { i < length self.old.instance.names }
        requires second { j < length self.old.instance.names }
        requires first_allowed { IsTrue (is_allowed self.old.instance i (slice_index self.old.starts j)) }
        requires second_allowed { IsTrue (is_allowed self.old.instance j (slice_index self.old.starts i)) }
        ensures starts { self.new ≡ record self.old { starts = swap self.old.starts i j } }
        ensures forward { steps.old ≤ steps.new }
    {
        let second = self.start_of(j);
        let first = self.set_start(i, second, steps);
        self.set_start(j, first, steps);
    }

    /// Takes a step back.
    pub(crate) fn undo<L: Ledger>(&mut self, step: Step, steps: &mut Steps<L>)
        requires named { NamesBelow (length self.old.instance.names) step }
        requires allowed { AreAllowedStarts self.old.instance (undone step self.old.starts) }
        ensures starts { self.new ≡ record self.old { starts = undone step self.old.starts } }
        ensures forward { steps.old ≤ steps.new }
    {
        match step {
            Step::Move { i, from } => {
                self.set_start(i, from, steps);
            }
            Step::Swap { i, j } => self.exchange(i, j, steps),
        }
    }

    /// Makes a change; the answer is the step back.
    pub(crate) fn change<L: Ledger>(&mut self, change: Change, steps: &mut Steps<L>) -> Step
        requires { CanChange self.old.instance self.old.starts change }
        ensures starts { self.new ≡ record self.old { starts = after_change change self.old.starts } }
        ensures back { result ≡ step_back change self.old.starts }
        ensures forward { steps.old ≤ steps.new }
    {
        match change {
            Change::Move { i, s } => {
                let from = self.set_start(i, s, steps);
                Step::Move { i, from }
            }
            Change::Swap { i, j } => {
                self.exchange(i, j, steps);
                Step::Swap { i, j }
            }
        }
    }

    /// The score after a change of the start of intervention `i`, where it is below `limit`.
    fn move_below<L: Ledger>(
        &mut self,
        i: u32,
        s: u32,
        limit: i128,
        steps: &mut Steps<L>,
    ) -> Option<i128>
        requires number { i < length self.old.instance.names }
        requires allowed { IsTrue (is_allowed self.old.instance i s) }
        ensures value { IfSome result
            (λ score. score ≡ score_of self.old.instance (map Some (slice_set self.old.starts i s))) }
        ensures below { IfSome result (λ score. score <ℤ limit) }
        ensures none { IfNone result (limit ≤ℤ score_of self.old.instance (map Some (slice_set self.old.starts i s))) }
        ensures same { self.new ≡ self.old }
        ensures forward { steps.old ≤ steps.new }
    {
        let from = self.start_of(i);
        let runs = [taken(i, from), added(i, s)];
        self.rows
            .score_below(self.violations.instance(), &runs, limit, steps)
    }

    /// The score after an exchange of the starts of two interventions, which may be one, where it is below `limit`.
    fn exchange_below<L: Ledger>(
        &mut self,
        i: u32,
        j: u32,
        limit: i128,
        steps: &mut Steps<L>,
    ) -> Option<i128>
        requires first { i < length self.old.instance.names }
        requires second { j < length self.old.instance.names }
        requires first_allowed { IsTrue (is_allowed self.old.instance i (slice_index self.old.starts j)) }
        requires second_allowed { IsTrue (is_allowed self.old.instance j (slice_index self.old.starts i)) }
        ensures value { IfSome result
            (λ score. score ≡ score_of self.old.instance (map Some (swap self.old.starts i j))) }
        ensures below { IfSome result (λ score. score <ℤ limit) }
        ensures none { IfNone result (limit ≤ℤ score_of self.old.instance (map Some (swap self.old.starts i j))) }
        ensures same { self.new ≡ self.old }
        ensures forward { steps.old ≤ steps.new }
    {
        let first = self.start_of(i);
        let second = self.start_of(j);
        let runs = [
            taken(i, first),
            added(i, second),
            taken(j, second),
            added(j, first),
        ];
        self.rows
            .score_below(self.violations.instance(), &runs, limit, steps)
    }

    /// The score after a change, where it is below `limit`. It is judged on scratch: nothing that is kept is changed.
    fn score_below<L: Ledger>(
        &mut self,
        change: Change,
        limit: i128,
        steps: &mut Steps<L>,
    ) -> Option<i128>
        requires { CanChange self.old.instance self.old.starts change }
        ensures value { IfSome result
            (λ score. score ≡ score_of self.old.instance (map Some (after_change change self.old.starts))) }
        ensures below { IfSome result (λ score. score <ℤ limit) }
        ensures none { IfNone result
            (limit ≤ℤ score_of self.old.instance (map Some (after_change change self.old.starts))) }
        ensures same { self.new ≡ self.old }
        ensures forward { steps.old ≤ steps.new }
    {
        match change {
            Change::Move { i, s } => self.move_below(i, s, limit, steps),
            Change::Swap { i, j } => self.exchange_below(i, j, limit, steps),
        }
    }

    /// The key after a change, where it is below `limit`. No row is changed, and none is read where the violation is
    /// above that of the limit.
    pub(crate) fn key_below<L: Ledger>(
        &mut self,
        change: Change,
        limit: Key,
        steps: &mut Steps<L>,
    ) -> Option<Key>
        requires { CanChange self.old.instance self.old.starts change }
        ensures value { IfSome result
            (λ key. key ≡ key_of self.old.instance (map Some (after_change change self.old.starts))) }
        ensures below { IfSome result (λ key. KeyBelow key limit) }
        ensures none { IfNone result
            (¬ KeyBelow (key_of self.old.instance (map Some (after_change change self.old.starts))) limit) }
        ensures same { self.new ≡ self.old }
        ensures forward { steps.old ≤ steps.new }
    {
        self.instance().fits();
        let violation = self.violations.after_within(change, limit.violation)?;
        let score = self.score_below(change, score_limit(violation, limit), steps)?;
        Some(Key { violation, score })
    }

    /// Whether a change lowers the key. No row is changed, and none is read where the violation decides.
    pub(crate) fn lowers<L: Ledger>(&mut self, change: Change, steps: &mut Steps<L>) -> bool
        requires { CanChange self.old.instance self.old.starts change }
        ensures value { IsTrue result
            ↔ KeyBelow (key_of self.old.instance (map Some (after_change change self.old.starts)))
            (key_of self.old.instance (map Some self.old.starts)) }
        ensures same { self.new ≡ self.old }
        ensures forward { steps.old ≤ steps.new }
    {
        let key = self.key();
        let Some(violation) = self.violations.after_within(change, key.violation) else {
            return false;
        };
        if violation < key.violation {
            return true;
        }
        self.score_below(change, key.score, steps).is_some()
    }
}
