//! The scenario sums of a period, from scratch, and what they come to: contracts cite the definitions.
ghost use Rattle.std.specs.Prelude.{◌≡◌, ◌+◌, ◌*◌, ◌<◌, ◌≤◌, ◌^◌, pos, length, IfOk, OnOk, unsigned_abs, All};
ghost use Rattle.fixed_num.specs.Sums.{total, list_of};
ghost use Rattle.instance_model.specs.Plans.{start_of, soft_at, soft_count, scenario_sums, sums_before, RunsAreAllowed};
ghost use Rattle.instance_model.specs.Plans.{IsSmallSum};
ghost use Rattle.plan_score.specs.Periods.{IsPeriod};

use crate::progress::is_in_progress;
use crate::rank::sum_at_rank;
use fixed_num::{Steps, Sum};
use instance_model::{Instance, excess_above, weighted};
use std::alloc::AllocError;
use std::sync::ledger::Ledger;

/// What the scenario sums of a period come to.
#[derive(Drop)]
pub(crate) struct Period {
    /// The sum of the scenario sums.
    pub(crate) total: i128,
    /// How far n times the quantile is above it, or 0.
    pub(crate) excess: i128,
    /// The two weighted, times n.
    pub(crate) numerator: i128,
    /// How many interventions are in progress at a start that is soft in the period.
    pub(crate) soft: u32,
}

/// Adds intervention `i` to the scenario sums of those before it: 1 where its start is soft in the period, and else 0.
fn add_run<L: Ledger>(
    inst: &Instance,
    plan: &[Option<u32>],
    t: u32,
    i: u32,
    sums: &mut [Sum],
    steps: &mut Steps<L>,
) -> u32
    requires each { length plan.now ≡ length inst.now.names }
    requires allowed { RunsAreAllowed inst.now plan.now }
    requires from { 1 ≤ t }
    requires to { t ≤ inst.now.periods }
    requires number { i < length inst.now.names }
    requires before { sums.old ≡ sums_before inst.now plan.now t i }
    ensures after { sums.new ≡ sums_before inst.now plan.now t (i + 1) }
    ensures soft { result ≡ soft_at inst.now t i (start_of plan.now i) }
    ensures small { result ≤ 1 }
{
    inst.fits();
    let Some(s) = plan[i as usize] else {
        return 0;
    };
    if !is_in_progress(inst, i, s, t) {
        return 0;
    }
    inst.add_risks(i, s, t, sums, steps);
    if inst.soft(i, s, t) { 1 } else { 0 }
}

/// Makes the sums `n` zeros, in the room that they have.
fn reset(sums: &mut Vec<Sum>, n: u32) -> Result<(), AllocError>
    ensures { OnOk result (sums.new.items ≡ list_of n (λ k. pos 0)) }
{
    sums.clear();
    for k in 0..n {
        sums.push(Sum::zero())?;
    }
    Ok(())
}

/// Makes the sums the scenario sums of period `t`, by scenario, in counts of 10^-12: the number of interventions in
/// progress at a start that is soft there. Takes memory where the sums have too little room.
pub fn sum_scenarios<L: Ledger>(
    inst: &Instance,
    plan: &[Option<u32>],
    t: u32,
    sums: &mut Vec<Sum>,
    steps: &mut Steps<L>,
) -> Result<u32, AllocError>
    requires each { length plan.now ≡ length inst.now.names }
    requires allowed { RunsAreAllowed inst.now plan.now }
    requires from { 1 ≤ t }
    requires to { t ≤ inst.now.periods }
    ensures sums { OnOk result (sums.new.items ≡ scenario_sums inst.now plan.now t) }
    ensures soft { IfOk result (λ soft. soft ≡ soft_count inst.now plan.now t) }
    ensures few { IfOk result (λ soft. soft ≤ 1024) }
{
    reset(sums, inst.scenarios(t))?;
    let mut soft = 0;
    for i in 0..inst.interventions() {
        soft += add_run(inst, plan, t, i, sums.as_mut_slice(), steps);
    }
    Ok(soft)
}

/// Makes the values those of the sums. Takes memory where the values have too little room.
pub fn read_sums<L: Ledger>(
    sums: &[Sum],
    values: &mut Vec<i128>,
    steps: &mut Steps<L>,
) -> Result<(), AllocError>
    ensures { OnOk result (values.new.items ≡ sums.now) }
{
    values.clear();
    for sum in sums {
        values.push(sum.value(steps))?;
    }
    Ok(())
}

/// The sum of a period's scenario sums, in counts of 10^-12.
pub fn total_of(sums: &[i128]) -> i128
    requires few { length sums.now ≤ 1024 }
    requires small { All IsSmallSum sums.now }
    ensures value { result ≡ total sums.now }
    ensures small { unsigned_abs result ≤ 1024 * 1024 * 10 ^ 20 }
{
    let mut sum: i128 = 0;
    for one in sums {
        sum += *one;
    }
    sum
}

/// What the scenario sums of period `t` come to. They are built in `sums`, and read into `values`, which end in order.
pub(crate) fn period_of<L: Ledger>(
    inst: &Instance,
    plan: &[Option<u32>],
    t: u32,
    sums: &mut Vec<Sum>,
    values: &mut Vec<i128>,
    steps: &mut Steps<L>,
) -> Result<Period, AllocError>
    requires each { length plan.now ≡ length inst.now.names }
    requires allowed { RunsAreAllowed inst.now plan.now }
    requires from { 1 ≤ t }
    requires to { t ≤ inst.now.periods }
    ensures { IfOk result (IsPeriod inst.now plan.now t) }
{
    inst.fits();
    let soft = sum_scenarios(inst, plan, t, sums, steps)?;
    read_sums(sums.as_slice(), values, steps)?;
    let total = total_of(values.as_slice());
    let quantile = sum_at_rank(values, inst.rank(t));
    let excess = excess_above(inst.scenarios(t), quantile, total);
    let numerator = weighted(inst.alpha(), total, excess);
    Ok(Period {
        total,
        excess,
        numerator,
        soft,
    })
}
