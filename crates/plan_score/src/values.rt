//! The values of a plan over all periods: a contract sees them as the record that the definitions make.
ghost use Rattle.std.specs.Prelude.{◌≡◌, ◌+◌, ◌*◌, ◌^◌, ◌<◌, ◌≤◌, length, IfOk, unsigned_abs};
ghost use Rattle.instance_model.specs.Naturals.{ceil_div_of};
ghost use Rattle.instance_model.specs.Plans.{RunsAreAllowed};
ghost use Rattle.plan_score.specs.Values.{values_of};
ghost use Rattle.plan_score.specs.Periods.{AreTotals};

use crate::enclosure::Enclosure;
use crate::period::period_of;
use fixed_num::Steps;
use instance_model::Instance;
use std::alloc::{AllocError, Global};
use std::sync::ledger::{Blank, Ledger};

/// What a plan that breaks no rule comes to.
///
/// The score and the roof are parts of 10^-18 of T times the cost; the other six are counts of 10^-12.
#[derive(Clone, Copy, Debug, PartialEq, Eq)]
pub struct Values {
    pub score: i128,
    pub roof: i128,
    pub cost_low: i128,
    pub cost_high: i128,
    pub mean_low: i128,
    pub mean_high: i128,
    pub excess_low: i128,
    pub excess_high: i128,
}

/// What all periods add up to.
#[derive(Drop)]
pub(crate) struct Totals {
    pub(crate) score: Enclosure,
    pub(crate) mean: Enclosure,
    pub(crate) excess: Enclosure,
    pub(crate) cost_slack: u64,
    pub(crate) mean_slack: u64,
}

/// What all periods add up to. Two vectors serve for the scenario sums of each, as sums and as numbers.
fn totals_of<L: Ledger>(
    alloc: Global,
    inst: &Instance,
    plan: &[Option<u32>],
    steps: &mut Steps<L>,
) -> Result<Totals, AllocError>
    requires each { length plan.now ≡ length inst.now.names }
    requires allowed { RunsAreAllowed inst.now plan.now }
    ensures { IfOk result (AreTotals inst.now plan.now inst.now.periods) }
{
    let mut sums = Vec::new(alloc);
    let mut values = Vec::new(alloc);
    let mut score = Enclosure { low: 0, high: 0 };
    let mut mean = Enclosure { low: 0, high: 0 };
    let mut excess = Enclosure { low: 0, high: 0 };
    let mut cost_slack: u64 = 0;
    let mut mean_slack: u64 = 0;
    for u in 0..inst.periods() {
        let n = inst.scenarios(u + 1);
        let period = period_of(inst, plan, u + 1, &mut sums, &mut values, steps)?;
        score.add(period.numerator, n);
        mean.add(period.total, n);
        excess.add_above_zero(period.excess, n, period.soft);
        cost_slack += half(period.soft, 2_000_000 - inst.alpha());
        mean_slack += half(period.soft, 1);
    }
    Ok(Totals {
        score,
        mean,
        excess,
        cost_slack,
        mean_slack,
    })
}

/// Half of a product, rounded up.
fn half(count: u32, each: u32) -> u64
    requires count { count ≤ 1024 }
    requires each { each ≤ 2_000_000 }
    ensures value { result ≡ ceil_div_of (count * each) 2 }
    ensures small { result ≤ 1_024_000_000 }
{
    (count as u64 * each as u64).div_ceil(2)
}

/// The values of a plan of allowed starts, computed on a new ledger.
pub(crate) fn values_on<L: Ledger>(
    alloc: Global,
    inst: &Instance,
    plan: &[Option<u32>],
    blank: Blank,
) -> Result<Values, AllocError>
    requires name { blank.name ≡ L.name }
    requires parts { blank.parts ≡ L.parts }
    requires some { 0 < blank.parts }
    requires each { length plan.now ≡ length inst.now.names }
    requires allowed { RunsAreAllowed inst.now plan.now }
    ensures value { IfOk result (λ values. values ≡ values_of inst.now plan.now) }
    ensures small { IfOk result (λ values. unsigned_abs values.score < 10 ^ 33) }
{
    inst.fits();
    let mut steps: Steps<L> = Steps::zero(blank);
    let totals = totals_of(alloc, inst, plan, &mut steps)?;
    let periods = inst.periods();
    let (cost_low, cost_high) = totals.score.shares(totals.cost_slack, periods * 1_000_000);
    let (mean_low, mean_high) = totals.mean.shares(totals.mean_slack, periods);
    let (excess_low, excess_high) = totals.excess.shares(0, periods);
    Ok(Values {
        score: totals.score.low,
        roof: totals.score.high,
        cost_low,
        cost_high,
        mean_low,
        mean_high,
        excess_low,
        excess_high,
    })
}
