//! The rows of all periods, with the score: contracts see the starts on board beside the sums by period.
ghost use Rattle.std.specs.Prelude.{◌≡◌, ℕ, ◌+◌, ◌-◌, ◌<◌, ◌≤◌, ◌^◌, length, map, Some, None, IfOk, IfSome, IsSome};
ghost use Rattle.std.specs.Prelude.{IfNone, ◌<ℤ◌, ◌≤ℤ◌, IsTrue, unsigned_abs, slice_set};
ghost use Rattle.instance_model.specs.Tables.{Tables, scenarios_of, delta_of, is_allowed};
ghost use Rattle.instance_model.specs.Plans.{AreAllowedStarts, start_of};
ghost use Rattle.instance_model.specs.Values.{score_of};
ghost use Rattle.scenario_rows.specs.RiskStates.{IsOver};
ghost use Rattle.scenario_rows.specs.Bounds.{period_bound, run_bound};
ghost use Rattle.scenario_rows.specs.Parts.{period_at};
ghost use Rattle.scenario_rows.specs.RunChanges.{start_before, start_after, CanChangeRuns, board_after};
ghost use Rattle.scenario_rows.specs.Changes.{CanChange, changed_period};

use crate::change::{Change, RunChange};
use crate::judge::score_from;
use crate::period_row::PeriodRow;
use duration_calendar::run;
use fixed_num::{Amount, Steps, Sum};
use instance_model::{Instance, plan_of};
use quantile_index::Row;
use std::alloc::{AllocError, Global};
use std::marker::{Brand, Model};
use std::sync::ledger::{Blank, Ledger};

/// The runs on board of an instance, with their scenario sums by period and their score.
///
/// It doesn't hold the instance: each call is handed the one over which it was made.
#[derive(Drop)]
pub struct RiskRows<R: Row> {
    board: Vec<Option<u32>>,
    periods: Vec<PeriodRow<R>>,
    score: Amount,
    /// Room for the sums of the longest period.
    scratch: Vec<Sum>,
    /// Room for their values.
    values: Vec<i128>,
}

impl<R: Row> Model for RiskRows<R> {
    ghost use Rattle.scenario_rows.specs.RiskStates.{RiskState};
    ghost use Rattle.scenario_rows.specs.Parts.{AreKept};
    ghost use Rattle.std.specs.Prelude.{length};

    ghost Value = { RiskState };

    ghost view = { λ r. record { board = r.board.items; periods = r.periods.items } };

    ghost invariant = { λ r. AreKept r.periods.items r.score (length r.scratch.items) (length r.values.items) };
}

/// The greatest number of scenarios of a period.
fn most_scenarios(inst: &Instance) -> u32
    ensures { (t : ℕ) → 1 ≤ t → t ≤ inst.now.periods → scenarios_of inst.now t ≤ result }
{
    let mut most = 0;
    for u in 0..inst.periods() {
        most = inst.scenarios(u + 1).max(most);
    }
    most
}

/// The rows with all interventions on board. Steps are counted on a counter of its own.
fn rows_of<R: Row, L: Ledger>(
    alloc: Global,
    inst: &Instance,
    starts: &[u32],
    blank: Blank,
) -> Result<RiskRows<R>, AllocError>
    requires name { blank.name ≡ L.name }
    requires parts { blank.parts ≡ L.parts }
    requires one { blank.parts ≡ 1 }
    requires starts { AreAllowedStarts inst.now starts.now }
    ensures over { IfOk result (IsOver inst.now) }
    ensures board { IfOk result (λ rows. rows.board ≡ map Some starts.now) }
{
    let mut steps = Steps::<L>::zero(blank);
    let board = plan_of(alloc, starts)?;
    let mut periods = Vec::with_capacity(alloc, inst.periods() as usize)?;
    let mut score = Amount::zero();
    for u in 0..inst.periods() {
        let period = PeriodRow::make(alloc, inst, starts, u + 1, &mut steps)?;
        score = score.plus(period.part());
        periods.push(period)?;
    }
    let most = most_scenarios(inst) as usize;
    let scratch = vec![in alloc; Sum::zero(); most]?;
    let values = vec![in alloc; 0; most]?;
    Ok(RiskRows {
        board,
        periods,
        score,
        scratch,
        values,
    })
}

impl<R: Row> RiskRows<R> {
    /// All interventions on board, each at its start. Each risk of their runs is read once.
    pub fn make(alloc: Global, inst: &Instance, starts: &[u32]) -> Result<RiskRows<R>, AllocError>
        requires { AreAllowedStarts inst.now starts.now }
        ensures over { IfOk result (IsOver inst.now) }
        ensures board { IfOk result (λ rows. rows.board ≡ map Some starts.now) }
    {
        rows_of::<R, Brand>(alloc, inst, starts, Blank::new(1))
    }

    /// The score of the runs on board.
    pub fn score(&self) -> i128
        ensures value { (inst : Tables) → IsOver inst self.now → result ≡ score_of inst self.now.board }
        ensures small { unsigned_abs result < 10 ^ 37 }
    {
        self.score.number()
    }

    /// The score after runs are put on board and taken off it, one after another, where it is below the limit. No run
    /// is changed, and no memory taken.
    pub fn score_below<L: Ledger>(
        &mut self,
        inst: &Instance,
        runs: &[RunChange],
        limit: i128,
        steps: &mut Steps<L>,
    ) -> Option<i128>
        requires over { IsOver inst.now self.old }
        requires can { CanChangeRuns inst.now self.old.board runs.now }
        ensures value { IfSome result (λ score. score ≡ score_of inst.now (board_after runs.now self.old.board)) }
        ensures below { IfSome result (λ score. score <ℤ limit) }
        ensures none { IfNone result (limit ≤ℤ score_of inst.now (board_after runs.now self.old.board)) }
        ensures same { self.new ≡ self.old }
        ensures forward { steps.old ≤ steps.new }
    {
        inst.fits();
        let after = score_from(
            &self.periods,
            inst,
            runs,
            1,
            self.score,
            limit,
            &mut self.scratch,
            &mut self.values,
            steps,
        )?;
        Some(after.number())
    }

    /// Puts intervention `i` on board at start `s`.
    pub fn add_run<L: Ledger>(&mut self, inst: &Instance, i: u32, s: u32, steps: &mut Steps<L>)
        requires over { IsOver inst.now self.old }
        requires number { i < length inst.now.names }
        requires not_on_board { start_of self.old.board i ≡ None }
        requires allowed { IsTrue (is_allowed inst.now i s) }
        ensures over { IsOver inst.now self.new }
        ensures board { self.new.board ≡ slice_set self.old.board i (Some s) }
        ensures cost { IfSome R.most (λ most. steps.new ≤ steps.old + run_bound inst.now most (delta_of inst.now i s)) }
        ensures forward { steps.old ≤ steps.new }
    {
        self.change_run(inst, i, s, Change::Add, steps);
    }

    /// Takes intervention `i`, which is on board, off it.
    pub fn take_run<L: Ledger>(&mut self, inst: &Instance, i: u32, steps: &mut Steps<L>)
        requires over { IsOver inst.now self.old }
        requires number { i < length inst.now.names }
        requires on_board { IsSome (start_of self.old.board i) }
        ensures over { IsOver inst.now self.new }
        ensures board { self.new.board ≡ slice_set self.old.board i None }
        ensures cost { IfSome (start_of self.old.board i) (λ s.
            IfSome R.most (λ most. steps.new ≤ steps.old + run_bound inst.now most (delta_of inst.now i s))) }
        ensures forward { steps.old ≤ steps.new }
    {
        match self.board[i as usize] {
            Some(s) => self.change_run(inst, i, s, Change::Take, steps),
            None => unreachable!(),
        }
    }

    /// Adds the run of intervention `i` at start `s`, or takes it away: in its periods alone, and on board.
    fn change_run<L: Ledger>(
        &mut self,
        inst: &Instance,
        i: u32,
        s: u32,
        change: Change,
        steps: &mut Steps<L>,
    )
        requires over { IsOver inst.now self.old }
        requires number { i < length inst.now.names }
        requires before { start_of self.old.board i ≡ start_before change s }
        requires allowed { IsTrue (is_allowed inst.now i s) }
        ensures over { IsOver inst.now self.new }
        ensures board { self.new.board ≡ slice_set self.old.board i (start_after change s) }
        ensures cost { IfSome R.most (λ most. steps.new ≤ steps.old + run_bound inst.now most (delta_of inst.now i s)) }
        ensures forward { steps.old ≤ steps.new }
    {
        inst.fits();
        let window = run(inst, i, s);
        for t in window.from..window.past {
            self.change_period(inst, i, s, t, change, steps);
        }
        self.board[i as usize] = change.start_after(s);
    }

    /// Changes period `t` by the risks of intervention `i` at start `s`, and the score by what the period adds to it.
    fn change_period<L: Ledger>(
        &mut self,
        inst: &Instance,
        i: u32,
        s: u32,
        t: u32,
        change: Change,
        steps: &mut Steps<L>,
    )
        requires each { length self.old.periods ≡ inst.now.periods }
        requires can { CanChange inst.now change i s t (period_at self.old.periods t).sums }
        ensures board { self.new.board ≡ self.old.board }
        ensures periods { self.new.periods ≡ slice_set self.old.periods (t - 1)
            (changed_period inst.now change i s t (period_at self.old.periods t)) }
        ensures cost { IfSome R.most (λ most. steps.new ≤ steps.old + period_bound most (scenarios_of inst.now t)) }
        ensures forward { steps.old ≤ steps.new }
    {
        let period = &mut self.periods[t as usize - 1];
        let old = period.part();
        period.change(inst, i, s, t, change, &mut self.scratch, steps);
        let new = period.part();
        self.score = self.score.minus(old).plus(new);
    }
}
