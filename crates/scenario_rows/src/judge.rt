//! A change judged on scratch: the score after it, where that is below a limit.
ghost use Rattle.std.specs.Prelude.{◌≡◌, ◌+◌, ◌-◌, ◌*◌, ◌≤◌, ◌^◌, ◌+ℤ◌, ◌<ℤ◌, ◌≤ℤ◌, length, IfSome, IfNone};
ghost use Rattle.std.specs.Prelude.{unsigned_abs};
ghost use Rattle.scenario_rows.specs.Shifts.{CanJudge, rise_from};

use crate::change::RunChange;
use crate::period_row::PeriodRow;
use crate::touched::next_touched;
use fixed_num::{Amount, Steps, Sum};
use instance_model::Instance;
use quantile_index::Row;
use std::sync::ledger::Ledger;

/// An amount, where it is below the limit.
fn if_below(amount: Amount, limit: i128) -> Option<Amount>
    ensures value { IfSome result (λ same. same ≡ amount) }
    ensures below { IfSome result (λ same. same <ℤ limit) }
    ensures none { IfNone result (limit ≤ℤ amount) }
{
    if amount.number() < limit {
        Some(amount)
    } else {
        None
    }
}

/// The score after the changes by the runs, where it is below the limit: `score` is so far that of the periods before
/// `from` after the changes, or less, and of the others before them.
///
/// On the way to the last period each period that the runs touch is taken at a bound, and nothing is ranked; where the
/// bounds together stay below the limit, the way back takes each period at what it adds.
pub(crate) fn score_from<R: Row, L: Ledger>(
    periods: &[PeriodRow<R>],
    inst: &Instance,
    runs: &[RunChange],
    from: u32,
    score: Amount,
    limit: i128,
    scratch: &mut [Sum],
    values: &mut [i128],
    steps: &mut Steps<L>,
) -> Option<Amount>
    requires can { CanJudge inst.now runs.now periods.now (length scratch.old) }
    requires room { length values.old ≡ length scratch.old }
    requires from { 1 ≤ from }
    requires to { from ≤ inst.now.periods + 1 }
    requires small { unsigned_abs score ≤ (512 + 2 * from) * (3 * 1024 * 1024 * 10 ^ 26) }
    ensures value { IfSome result (λ after. after ≡ score +ℤ rise_from inst.now runs.now periods.now from) }
    ensures below { IfSome result (λ after. after <ℤ limit) }
    ensures none { IfNone result (limit ≤ℤ (score +ℤ rise_from inst.now runs.now periods.now from)) }
    ensures small { IfSome result
        (λ after. unsigned_abs after ≤ (4096 - 2 * from) * (3 * 1024 * 1024 * 10 ^ 26)) }
    ensures sums_room { length scratch.new ≡ length scratch.old }
    ensures values_room { length values.new ≡ length values.old }
    ensures forward { steps.old ≤ steps.new }
{
    let t = next_touched(inst, runs, from);
    if t > inst.periods() {
        return if_below(score, limit);
    }
    let period = &periods[t as usize - 1];
    let least = period.least_part_after(inst, runs, t, steps);
    let bound = score.minus(period.part()).plus(least);
    let after = score_from(
        periods,
        inst,
        runs,
        t + 1,
        bound,
        limit,
        scratch,
        values,
        steps,
    )?;
    let part = period.part_after(inst, runs, t, scratch, values, steps);
    if_below(after.minus(least).plus(part), limit)
}
