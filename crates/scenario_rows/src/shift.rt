//! Scenario sums on scratch, changed by the risks of a run: contracts see lists by scenario.
ghost use Rattle.std.specs.Prelude.{◌≡◌, ◌+◌, ◌*◌, ◌≤◌, ◌^◌, [], ◌∷◌, length, unsigned_abs};
ghost use Rattle.fixed_num.specs.Sums.{total};
ghost use Rattle.instance_model.specs.RiskNumbers.{numbers_of};
ghost use Rattle.scenario_rows.specs.Changes.{changed_by};
ghost use Rattle.scenario_rows.specs.Parts.{AreRowSums};
ghost use Rattle.scenario_rows.specs.Shifts.{CanShift, shifted, shifted_by};

use crate::change::{Change, RunChange};
use crate::touched::is_running;
use fixed_num::{Amount, Steps, Sum};
use instance_model::{Instance, RiskNumbers};
use quantile_index::Row;
use std::sync::ledger::Ledger;

/// Copies the sums of a row.
pub(crate) fn copy_sums<R: Row>(row: &R, to: &mut [Sum])
    requires { length to.old ≡ length (R.sums row.now) }
    ensures { to.new ≡ R.sums row.now }
{
    for k in 0..row.len() {
        to[k as usize] = row.get(k + 1);
    }
}

/// Changes each sum by the risk of its scenario.
pub(crate) fn shift(sums: &mut [Sum], risks: RiskNumbers<'_>, change: Change)
    requires each { length (numbers_of risks) ≡ length sums.old }
    requires small { AreRowSums (changed_by change (numbers_of risks) sums.old) }
    ensures { sums.new ≡ changed_by change (numbers_of risks.entry) sums.old }
{
    for k in 0..risks.len() {
        sums[k] = change.sum_after(sums[k], risks.at(k));
    }
}

/// Changes each sum of period `t` by the run, where that is in progress.
fn shift_by_run<L: Ledger>(
    inst: &Instance,
    one: RunChange,
    t: u32,
    sums: &mut [Sum],
    steps: &mut Steps<L>,
)
    requires { CanShift inst.now t (one ∷ []) sums.old }
    ensures sums { sums.new ≡ shifted inst.now t one sums.old }
    ensures forward { steps.old ≤ steps.new }
{
    if is_running(inst, one, t) {
        shift(sums, inst.risks(one.i, one.s, t, steps), one.change);
    }
}

/// Changes the sums of period `t` by the runs, one after another.
pub(crate) fn shift_by_runs<L: Ledger>(
    inst: &Instance,
    runs: &[RunChange],
    t: u32,
    sums: &mut [Sum],
    steps: &mut Steps<L>,
)
    requires { CanShift inst.now t runs.now sums.old }
    ensures sums { sums.new ≡ shifted_by inst.now t runs.now sums.old }
    ensures forward { steps.old ≤ steps.new }
{
    for one in runs {
        shift_by_run(inst, *one, t, sums, steps);
    }
}

/// The total of some risks.
pub(crate) fn risk_total(risks: RiskNumbers<'_>) -> Amount
    requires { length (numbers_of risks) ≤ 1024 }
    ensures value { result ≡ total (numbers_of risks.entry) }
    ensures small { unsigned_abs result ≤ 1024 * 10 ^ 20 }
{
    let mut total = Amount::zero();
    for k in 0..risks.len() {
        total = total.plus(Amount::of(risks.at(k).count()));
    }
    total
}
