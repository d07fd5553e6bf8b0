//! A row of scenario sums with their total, which is kept as they change: contracts see the sums.
ghost use Rattle.std.specs.Prelude.{◌≡◌, ◌+◌, ◌*◌, ◌≤◌, ◌^◌, ℤ, ◌≤ℤ◌, List, length, IfOk, IfSome, unsigned_abs};
ghost use Rattle.fixed_num.specs.Sums.{total};
ghost use Rattle.instance_model.specs.RiskNumbers.{numbers_of};
ghost use Rattle.scenario_rows.specs.Changes.{changed_by};
ghost use Rattle.scenario_rows.specs.Parts.{AreRowSums, part_in};
ghost use Rattle.scenario_rows.specs.Shifts.{CanShift, shifted_by};

use crate::change::{Change, RunChange};
use crate::part::part;
use crate::quantile::{least_of_high, sum_at_rank};
use crate::shift::{copy_sums, risk_total, shift, shift_by_runs};
use crate::touched::is_running;
use fixed_num::{Amount, Steps, Sum};
use instance_model::{Instance, RiskNumbers};
use quantile_index::Row;
use std::alloc::{AllocError, Global};
use std::marker::Model;
use std::sync::ledger::Ledger;

/// A row of scenario sums beside their total: contracts see it as the sums.
#[derive(Drop)]
pub(crate) struct SumRow<R: Row> {
    row: R,
    total: Amount,
}

impl<R: Row> Model for SumRow<R> {
    ghost use Rattle.std.specs.Prelude.{ℤ, List};
    ghost use Rattle.scenario_rows.specs.Parts.{IsTotalled};

    ghost Value = { List ℤ };

    ghost view = { λ r. R.sums r.row };

    ghost invariant = { λ r. IsTotalled (R.sums r.row) r.total };
}

/// The total of some sums, in a step for each.
fn total_of<L: Ledger>(sums: &[Sum], steps: &mut Steps<L>) -> Amount
    requires { AreRowSums sums.now }
    ensures total { result ≡ total sums.now }
    ensures forward { steps.old ≤ steps.new }
{
    let mut total = Amount::zero();
    for sum in sums {
        total = total.plus(Amount::of(sum.value(steps)));
    }
    total
}

impl<R: Row> SumRow<R> {
    pub(crate) fn make<L: Ledger>(
        alloc: Global,
        sums: &[Sum],
        steps: &mut Steps<L>,
    ) -> Result<SumRow<R>, AllocError>
        requires { AreRowSums sums.now }
        ensures { IfOk result (λ row. row ≡ sums.now) }
    {
        let total = total_of(sums, steps);
        let row = R::make(alloc, sums)?;
        Ok(SumRow { row, total })
    }

    /// Changes each sum by the risk of its scenario. The new sums are made on scratch.
    pub(crate) fn change<L: Ledger>(
        &mut self,
        risks: RiskNumbers<'_>,
        change: Change,
        scratch: &mut [Sum],
        steps: &mut Steps<L>,
    )
        requires each { length (numbers_of risks) ≡ length self.old }
        requires room { length scratch.old ≡ length self.old }
        requires small { AreRowSums (changed_by change (numbers_of risks) self.old) }
        ensures sums { self.new ≡ changed_by change (numbers_of risks.entry) self.old }
        ensures room { length scratch.new ≡ length scratch.old }
        ensures cost { IfSome R.most (λ most. steps.new ≤ steps.old + length self.old * most (length self.old)) }
        ensures forward { steps.old ≤ steps.new }
    {
        copy_sums(&self.row, scratch);
        shift(scratch, risks, change);
        self.row.replace_all(scratch, steps);
        self.total = change.total_after(self.total, risk_total(risks));
    }

    /// What the sums add to the score. One step reads the quantile.
    pub(crate) fn part<L: Ledger>(&self, alpha: u32, rank: u32, steps: &mut Steps<L>) -> Amount
        requires alpha { alpha ≤ 1_000_000 }
        requires from { 1 ≤ rank }
        requires to { rank ≤ length self.now }
        ensures value { result ≡ part_in alpha rank self.now }
        ensures cost { IfSome R.most (λ _. steps.new ≤ steps.old + 1) }
        ensures forward { steps.old ≤ steps.new }
    {
        let quantile = self.row.kth(rank, steps).value(steps);
        part(alpha, self.row.len(), quantile, self.total.number())
    }

    /// The total of the sums of period `t` after the changes by the runs, from that of their risks.
    fn total_after<L: Ledger>(
        &self,
        inst: &Instance,
        runs: &[RunChange],
        t: u32,
        steps: &mut Steps<L>,
    ) -> Amount
        requires { CanShift inst.now t runs.now self.now }
        ensures value { result ≡ total (shifted_by inst.now t runs.now self.now) }
        ensures forward { steps.old ≤ steps.new }
    {
        let mut total = self.total;
        for one in runs {
            if is_running(inst, *one, t) {
                let risks = inst.risks(one.i, one.s, t, steps);
                total = one.change.total_after(total, risk_total(risks));
            }
        }
        total
    }

    /// At most what the sums of period `t` add to the score after the changes by the runs: only the sums that were high
    /// before are changed, and nothing is ranked.
    pub(crate) fn least_part_after<L: Ledger>(
        &self,
        inst: &Instance,
        runs: &[RunChange],
        t: u32,
        alpha: u32,
        rank: u32,
        steps: &mut Steps<L>,
    ) -> Amount
        requires can { CanShift inst.now t runs.now self.now }
        requires alpha { alpha ≤ 1_000_000 }
        requires from { 1 ≤ rank }
        requires to { rank ≤ length self.now }
        ensures least { result ≤ℤ part_in alpha rank (shifted_by inst.now t runs.now self.now) }
        ensures small { unsigned_abs result ≤ 3 * 1024 * 1024 * 10 ^ 26 }
        ensures forward { steps.old ≤ steps.new }
    {
        let total = self.total_after(inst, runs, t, steps);
        let before = self.row.kth(rank, steps).value(steps);
        let quantile = least_of_high(&self.row, inst, runs, t, before, steps);
        part(alpha, self.row.len(), quantile, total.number())
    }

    /// What the sums of period `t` add to the score after the changes by the runs. The sums are changed on scratch.
    pub(crate) fn part_after<L: Ledger>(
        &self,
        inst: &Instance,
        runs: &[RunChange],
        t: u32,
        alpha: u32,
        rank: u32,
        scratch: &mut [Sum],
        values: &mut [i128],
        steps: &mut Steps<L>,
    ) -> Amount
        requires can { CanShift inst.now t runs.now self.now }
        requires alpha { alpha ≤ 1_000_000 }
        requires from { 1 ≤ rank }
        requires to { rank ≤ length self.now }
        requires sums_room { length scratch.old ≡ length self.now }
        requires values_room { length values.old ≡ length self.now }
        ensures value { result ≡ part_in alpha rank (shifted_by inst.now t runs.now self.now) }
        ensures sums_room { length scratch.new ≡ length scratch.old }
        ensures values_room { length values.new ≡ length values.old }
        ensures forward { steps.old ≤ steps.new }
    {
        copy_sums(&self.row, scratch);
        shift_by_runs(inst, runs, t, scratch, steps);
        let total = total_of(scratch, steps);
        let quantile = sum_at_rank(scratch, rank, values, steps);
        part(alpha, self.row.len(), quantile, total.number())
    }

    /// How many sums there are.
    pub(crate) fn len(&self) -> u32
        ensures value { result ≡ length self.now }
        ensures few { result ≤ 1024 }
    {
        self.row.len()
    }
}
