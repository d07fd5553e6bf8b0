//! What the scenario sums of a period come to.
ghost use Rattle.std.specs.Prelude.{◌≡◌, ◌≤◌, ◌^◌, pos, ◌-ℤ◌, length, All, IfOk, unsigned_abs};
ghost use Rattle.fixed_num.specs.Floors.{floor_of};
ghost use Rattle.instance_model.specs.Naturals.{ceil_div_of};
ghost use Rattle.instance_model.specs.Plans.{IsSmallSum, RunsAreAllowed};
ghost use Rattle.plan_table.specs.Figures.{ArePeriodSums, AreRanked, AreFigures, IsFigure};

use fixed_num::{Steps, floor_div};
use instance_model::{Instance, excess_above};
use plan_score::{ceil_and_more, floor_above_zero, read_sums, sum_scenarios, total_of};
use std::alloc::{AllocError, Global};
use std::sync::ledger::Ledger;

/// The scenario sums of a period, and how many interventions are in progress at a start that is soft there.
#[derive(Drop)]
pub(crate) struct PeriodSums {
    pub(crate) values: Vec<i128>,
    pub(crate) soft: u32,
}

/// The least of the scenario sums, the one at the rank, and the greatest.
#[derive(Clone, Copy)]
pub(crate) struct Ranked {
    pub(crate) least: i128,
    pub(crate) quantile: i128,
    pub(crate) greatest: i128,
}

/// The numbers of a period, in counts of 10^-12.
#[derive(Clone, Copy)]
pub(crate) struct Figures {
    pub(crate) ranked: Ranked,
    pub(crate) mean_low: i128,
    pub(crate) mean_high: i128,
    pub(crate) excess_low: i128,
    pub(crate) excess_high: i128,
}

/// The scenario sums of period `t`.
fn period_sums<L: Ledger>(
    alloc: Global,
    inst: &Instance,
    plan: &[Option<u32>],
    t: u32,
    steps: &mut Steps<L>,
) -> Result<PeriodSums, AllocError>
    requires each { length plan.now ≡ length inst.now.names }
    requires allowed { RunsAreAllowed inst.now plan.now }
    requires from { 1 ≤ t }
    requires to { t ≤ inst.now.periods }
    ensures { IfOk result (ArePeriodSums inst.now plan.now t) }
{
    let mut sums = Vec::new(alloc);
    let mut values = Vec::new(alloc);
    let soft = sum_scenarios(inst, plan, t, &mut sums, steps)?;
    read_sums(sums.as_slice(), &mut values, steps)?;
    Ok(PeriodSums { values, soft })
}

/// The least of the sums, the one at the rank and the greatest. The sums are put in ascending order.
fn ranked_of(sums: &mut Vec<i128>, rank: u32) -> Ranked
    requires from { 1 ≤ rank }
    requires to { rank ≤ length sums.old.items }
    requires small { All IsSmallSum sums.old.items }
    ensures { AreRanked rank (length sums.old.items) sums.old.items result }
{
    sums.sort_unstable();
    Ranked {
        least: sums[0],
        quantile: sums[rank as usize - 1],
        greatest: sums[sums.len() - 1],
    }
}

/// `total / n` rounded down and less a margin in the same unit.
fn floor_and_less(total: i128, n: u32, margin: u32) -> i128
    requires some { 1 ≤ n }
    requires few { margin ≤ 1024 }
    requires total { unsigned_abs total ≤ 10 ^ 32 }
    ensures { IsFigure (floor_of total n -ℤ pos margin) result }
{
    floor_div(total, n as i128) - margin as i128
}

/// Half of a number of soft starts, rounded up.
fn half(soft: u32) -> u32
    ensures value { result ≡ ceil_div_of soft 2 }
    ensures small { result ≤ soft }
{
    soft.div_ceil(2)
}

/// The numbers of period `t`.
pub(crate) fn figures_of<L: Ledger>(
    alloc: Global,
    inst: &Instance,
    plan: &[Option<u32>],
    t: u32,
    steps: &mut Steps<L>,
) -> Result<Figures, AllocError>
    requires each { length plan.now ≡ length inst.now.names }
    requires allowed { RunsAreAllowed inst.now plan.now }
    requires from { 1 ≤ t }
    requires to { t ≤ inst.now.periods }
    ensures { IfOk result (AreFigures inst.now plan.now t) }
{
    inst.fits();
    let mut sums = period_sums(alloc, inst, plan, t, steps)?;
    let n = inst.scenarios(t);
    let margin = half(sums.soft);
    let total = total_of(sums.values.as_slice());
    let ranked = ranked_of(&mut sums.values, inst.rank(t));
    let excess = excess_above(n, ranked.quantile, total);
    Ok(Figures {
        ranked,
        mean_low: floor_and_less(total, n, margin),
        mean_high: ceil_and_more(total, n, margin),
        excess_low: floor_above_zero(excess, n, sums.soft),
        excess_high: ceil_and_more(excess, n, sums.soft),
    })
}
