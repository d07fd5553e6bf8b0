//! One period of the rows: contracts see its scenario sums, its rank and the weight of the mean.
ghost use Rattle.std.specs.Prelude.{◌≡◌, ◌+◌, ◌*◌, ◌≤◌, ◌^◌, ◌≤ℤ◌, length, map, Some, IfOk, IfSome, unsigned_abs};
ghost use Rattle.instance_model.specs.Plans.{AreAllowedStarts};
ghost use Rattle.scenario_rows.specs.RiskStates.{period_of};
ghost use Rattle.scenario_rows.specs.Bounds.{period_bound};
ghost use Rattle.scenario_rows.specs.Changes.{CanChange, changed_period};
ghost use Rattle.scenario_rows.specs.Parts.{part_of, IsSoundPeriod};
ghost use Rattle.scenario_rows.specs.Shifts.{CanShift, shifted_period};

use crate::change::{Change, RunChange};
use crate::runs::sums_of;
use crate::sum_row::SumRow;
use fixed_num::{Amount, Steps, Sum};
use instance_model::Instance;
use quantile_index::Row;
use std::alloc::{AllocError, Global};
use std::marker::Model;
use std::sync::ledger::Ledger;

/// The scenario sums of a period, and what they add to the score.
#[derive(Drop)]
pub(crate) struct PeriodRow<R: Row> {
    alpha: u32,
    rank: u32,
    row: SumRow<R>,
    part: Amount,
}

impl<R: Row> Model for PeriodRow<R> {
    ghost use Rattle.scenario_rows.specs.RiskStates.{PeriodState};
    ghost use Rattle.scenario_rows.specs.Parts.{IsWeighed};

    ghost Value = { PeriodState };

    ghost view = { λ p. record { alpha = p.alpha; rank = p.rank; sums = p.row } };

    ghost invariant = { λ p. IsWeighed (record { alpha = p.alpha; rank = p.rank; sums = p.row }) p.part };
}

impl<R: Row> PeriodRow<R> {
    /// Period `t` where each intervention has its start.
    pub(crate) fn make<L: Ledger>(
        alloc: Global,
        inst: &Instance,
        starts: &[u32],
        t: u32,
        steps: &mut Steps<L>,
    ) -> Result<PeriodRow<R>, AllocError>
        requires starts { AreAllowedStarts inst.now starts.now }
        requires from { 1 ≤ t }
        requires to { t ≤ inst.now.periods }
        ensures { IfOk result (λ period. period ≡ period_of inst.now (map Some starts.now) t) }
    {
        inst.fits();
        let alpha = inst.alpha();
        let rank = inst.rank(t);
        let sums = sums_of(alloc, inst, starts, t, steps)?;
        let row = SumRow::make(alloc, sums.as_slice(), steps)?;
        let part = row.part(alpha, rank, steps);
        Ok(PeriodRow {
            alpha,
            rank,
            row,
            part,
        })
    }

    /// What the period adds to the score.
    pub(crate) fn part(&self) -> Amount
        ensures value { result ≡ part_of self.now }
        ensures sound { IsSoundPeriod self.now }
    {
        self.part
    }

    /// Changes the sums of period `t`, which this is, by the risks of intervention `i` at start `s`. The new sums are
    /// made on scratch.
    pub(crate) fn change<L: Ledger>(
        &mut self,
        inst: &Instance,
        i: u32,
        s: u32,
        t: u32,
        change: Change,
        scratch: &mut [Sum],
        steps: &mut Steps<L>,
    )
        requires can { CanChange inst.now change i s t self.old.sums }
        requires room { length self.old.sums ≤ length scratch.old }
        ensures room { length scratch.new ≡ length scratch.old }
        ensures value { self.new ≡ changed_period inst.now change i s t self.old }
        ensures cost { IfSome R.most (λ most. steps.new ≤ steps.old + period_bound most (length self.old.sums)) }
        ensures forward { steps.old ≤ steps.new }
    {
        let risks = inst.risks(i, s, t, steps);
        let scratch = &mut scratch[..risks.len()];
        self.row.change(risks, change, scratch, steps);
        self.part = self.row.part(self.alpha, self.rank, steps);
    }

    /// At most what period `t`, which this is, adds to the score after the changes by the runs: nothing is ranked.
    pub(crate) fn least_part_after<L: Ledger>(
        &self,
        inst: &Instance,
        runs: &[RunChange],
        t: u32,
        steps: &mut Steps<L>,
    ) -> Amount
        requires { CanShift inst.now t runs.now self.now.sums }
        ensures least { result ≤ℤ part_of (shifted_period inst.now t runs.now self.now) }
        ensures small { unsigned_abs result ≤ 3 * 1024 * 1024 * 10 ^ 26 }
        ensures forward { steps.old ≤ steps.new }
    {
        self.row
            .least_part_after(inst, runs, t, self.alpha, self.rank, steps)
    }

    /// What period `t`, which this is, adds to the score after the changes by the runs. The sums are changed on
    /// scratch.
    pub(crate) fn part_after<L: Ledger>(
        &self,
        inst: &Instance,
        runs: &[RunChange],
        t: u32,
        scratch: &mut [Sum],
        values: &mut [i128],
        steps: &mut Steps<L>,
    ) -> Amount
        requires can { CanShift inst.now t runs.now self.now.sums }
        requires sums_room { length self.now.sums ≤ length scratch.old }
        requires values_room { length self.now.sums ≤ length values.old }
        ensures value { result ≡ part_of (shifted_period inst.now t runs.now self.now) }
        ensures small { unsigned_abs result ≤ 3 * 1024 * 1024 * 10 ^ 26 }
        ensures sums_room { length scratch.new ≡ length scratch.old }
        ensures values_room { length values.new ≡ length values.old }
        ensures forward { steps.old ≤ steps.new }
    {
        let n = self.row.len() as usize;
        let scratch = &mut scratch[..n];
        let values = &mut values[..n];
        self.row.part_after(inst, runs, t, self.alpha, self.rank, scratch, values, steps)
    }
}
