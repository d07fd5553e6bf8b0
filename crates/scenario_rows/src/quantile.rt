//! The quantile of sums, exact on scratch, and a bound on it from the scenarios that were high before.
ghost use Rattle.std.specs.Prelude.{◌≡◌, ℕ, ◌+◌, ◌<◌, ◌≤◌, pos, ◌≤ℤ◌, length, slice_index_or};
ghost use Rattle.fixed_num.specs.Rank.{mth_smallest};
ghost use Rattle.instance_model.specs.Plans.{IsSmallSum};
ghost use Rattle.scenario_rows.specs.Parts.{AreRowSums};
ghost use Rattle.scenario_rows.specs.Shifts.{CanShift, shifted_by};

use crate::change::RunChange;
use crate::touched::is_running;
use fixed_num::{Steps, Sum};
use instance_model::Instance;
use quantile_index::Row;
use std::sync::ledger::Ledger;

/// No scenario sum is above this.
const MOST_SUM: i128 = 102_400_000_000_000_000_000_000;

/// Reads each sum, in a step.
fn read_sums<L: Ledger>(sums: &[Sum], values: &mut [i128], steps: &mut Steps<L>)
    requires { length values.old ≡ length sums.now }
    ensures values { values.new ≡ sums.now }
    ensures forward { steps.old ≤ steps.new }
{
    for (k, sum) in sums.iter().enumerate() {
        values[k] = sum.value(steps);
    }
}

/// The sum at a rank in ascending order. Each is read once, in a step; on scratch the values are put around the one of
/// this rank, the others in no order.
pub(crate) fn sum_at_rank<L: Ledger>(
    sums: &[Sum],
    rank: u32,
    values: &mut [i128],
    steps: &mut Steps<L>,
) -> i128
    requires from { 1 ≤ rank }
    requires to { rank ≤ length sums.now }
    requires row { AreRowSums sums.now }
    requires room { length values.old ≡ length sums.now }
    ensures value { result ≡ mth_smallest rank sums.now }
    ensures small { IsSmallSum result }
    ensures room { length values.new ≡ length values.old }
    ensures forward { steps.old ≤ steps.new }
{
    read_sums(sums, values, steps);
    let (_, found, _) = values.select_nth_unstable(rank as usize - 1);
    *found
}

/// The sum of the scenario at this place after the changes by the runs: each of their risks of it is read in a step.
fn sum_after<R: Row, L: Ledger>(
    row: &R,
    inst: &Instance,
    runs: &[RunChange],
    t: u32,
    k: u32,
    steps: &mut Steps<L>,
) -> Sum
    requires can { CanShift inst.now t runs.now (R.sums row.now) }
    requires within { k < length (R.sums row.now) }
    ensures value { result ≡ slice_index_or (shifted_by inst.now t runs.now (R.sums row.now)) k (pos 0) }
    ensures small { IsSmallSum result }
    ensures forward { steps.old ≤ steps.new }
{
    let mut sum = row.get(k + 1);
    for one in runs {
        if is_running(inst, *one, t) {
            let risk = inst.risk_cell(one.i, one.s, t, k + 1, steps);
            sum = one.change.sum_after(sum, risk);
        }
    }
    sum
}

/// The lesser of a number and the sum of the scenario at this place after the changes by the runs, where its sum before
/// was at least the quantile; else the number.
fn lowered<R: Row, L: Ledger>(
    row: &R,
    inst: &Instance,
    runs: &[RunChange],
    t: u32,
    k: u32,
    quantile: i128,
    least: i128,
    steps: &mut Steps<L>,
) -> i128
    requires can { CanShift inst.now t runs.now (R.sums row.now) }
    requires within { k < length (R.sums row.now) }
    requires least { IsSmallSum least }
    ensures kept { result ≤ℤ least }
    ensures high { quantile ≤ℤ slice_index_or (R.sums row.now) k (pos 0)
        → result ≤ℤ slice_index_or (shifted_by inst.now t runs.now (R.sums row.now)) k (pos 0) }
    ensures small { IsSmallSum result }
    ensures forward { steps.old ≤ steps.new }
{
    if quantile <= row.get(k + 1).value(steps) {
        least.min(sum_after(row, inst, runs, t, k, steps).value(steps))
    } else {
        least
    }
}

/// The least of the sums after the changes by the runs of those scenarios whose sum before was at least the quantile:
/// at most the quantile after the changes, since so many sums are no smaller. Each sum before is read in a step.
pub(crate) fn least_of_high<R: Row, L: Ledger>(
    row: &R,
    inst: &Instance,
    runs: &[RunChange],
    t: u32,
    quantile: i128,
    steps: &mut Steps<L>,
) -> i128
    requires { CanShift inst.now t runs.now (R.sums row.now) }
    ensures least { (k : ℕ) → k < length (R.sums row.now) → quantile ≤ℤ slice_index_or (R.sums row.now) k (pos 0)
        → result ≤ℤ slice_index_or (shifted_by inst.now t runs.now (R.sums row.now)) k (pos 0) }
    ensures small { IsSmallSum result }
    ensures forward { steps.old ≤ steps.new }
{
    let mut least = MOST_SUM;
    for k in 0..row.len() {
        least = lowered(row, inst, runs, t, k, quantile, least, steps);
    }
    least
}
