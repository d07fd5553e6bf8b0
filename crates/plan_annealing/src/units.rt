//! What the search counts in: shares of risks, sums and values that are sure to fit in 64 bits.
//!
//! A risk is counted in 2^r counts of 10^-12, rounded down, and the value of a period in 2^(r + v) parts of 10^-18,
//! rounded down. Here r and v are the least with which a sum of the greatest risk over all interventions and over all
//! scenarios of a period, or over all periods, is at most 2^61, and the score that such sums would have at most 2^62.
//!
//! So where all risks together are below some 2 million, r is 0: all sums and quantiles are exact, and changes are
//! judged in the order of their scores but for 2^v parts of 10^-18 in a period (with risks of some 1,000 in 500
//! interventions: 2^22, or 4 * 10^-12). Where risks are small counts, v is 0 too, and what a change adds is exactly
//! what it adds to the score.

ghost use Rattle.std.specs.Prelude.{◌≡◌, ◌<◌, ◌≤◌, length, IsTrue};
ghost use Rattle.instance_model.specs.Tables.{is_allowed};

use duration_calendar::run;
use fixed_num::Steps;
use instance_model::Instance;
use std::marker::Brand;
use std::sync::ledger::{Blank, Ledger};

/// The most that a sum of risks may come to.
const MOST_SUM: i128 = 2_305_843_009_213_693_952;

/// The most that a score may come to.
const MOST_VALUE: i128 = 4_611_686_018_427_387_904;

/// The weights of mean and excess, in millionths.
const MILLION: i64 = 1_000_000;

/// How many bits are dropped, of risks and of values.
#[derive(Clone, Copy)]
pub(crate) struct Units {
    risk: u32,
    value: u32,
    alpha: i64,
}

/// How many bits an amount has to drop to be at most another.
fn bits_above(amount: i128, most: i128) -> u32 {
    let mut rest = amount;
    for bits in 0..63 {
        if rest <= most {
            return bits;
        }
        rest /= 2;
    }
    63
}

/// The greatest size of a risk of intervention `i` at start `s`, or `most` where that is more.
fn most_of_run<L: Ledger>(inst: &Instance, i: u32, s: u32, most: i128, steps: &mut Steps<L>) -> i128
    requires number { i < length inst.now.names }
    requires allowed { IsTrue (is_allowed inst.now i s) }
{
    let mut most = most;
    let window = run(inst, i, s);
    for t in window.from..window.past {
        let risks = inst.risks(i, s, t, steps);
        for k in 0..risks.len() {
            most = most.max(risks.at(k).count().saturating_abs());
        }
    }
    most
}

/// The greatest size of a risk.
fn most_risk<L: Ledger>(inst: &Instance, blank: Blank) -> i128
    requires name { blank.name ≡ L.name }
    requires parts { blank.parts ≡ L.parts }
    requires some { 0 < blank.parts }
{
    let mut steps: Steps<L> = Steps::zero(blank);
    let mut most = 0;
    for i in 0..inst.interventions() {
        for s in 1..inst.periods() + 1 {
            if inst.allowed(i, s) {
                most = most_of_run(inst, i, s, most, &mut steps);
            }
        }
    }
    most
}

impl Units {
    /// Those for an instance, of which a period has at most so many scenarios.
    pub(crate) fn of(inst: &Instance, scenarios: usize) -> Units {
        let longest = scenarios.max(inst.periods() as usize);
        let most = most_risk::<Brand>(inst, Blank::new(1))
            .saturating_mul(i128::from(inst.interventions()))
            .saturating_mul(longest as i128);
        let risk = bits_above(most, MOST_SUM);
        let score = most.min(MOST_SUM).saturating_mul(2 * i128::from(MILLION));
        Units {
            risk,
            value: bits_above(score, MOST_VALUE),
            alpha: i64::from(inst.alpha()),
        }
    }

    /// How many bits are dropped of a value, counted in 10^-18.
    pub(crate) fn dropped_bits(&self) -> u32 {
        self.risk.wrapping_add(self.value)
    }

    /// Whether the mean alone counts.
    #[inline]
    pub(crate) fn has_mean_alone(&self) -> bool {
        self.alpha == MILLION
    }

    /// A risk.
    #[inline]
    pub(crate) fn risk(&self, count: i128) -> i64 {
        (count >> (self.risk & 63)).clamp(-MOST_SUM, MOST_SUM) as i64
    }

    /// The value of a period of `n` scenarios: of their sums this is the total, and this the quantile.
    #[inline]
    pub(crate) fn value(&self, n: i64, total: i64, quantile: i64) -> i64 {
        let excess = n.wrapping_mul(quantile).wrapping_sub(total).max(0);
        let mean = i128::from(self.alpha).wrapping_mul(i128::from(total));
        let rest = i128::from(MILLION.wrapping_sub(self.alpha)).wrapping_mul(i128::from(excess));
        let value = mean.wrapping_add(rest) >> (self.value & 63);
        floor_of(value.clamp(-MOST_VALUE, MOST_VALUE) as i64, n.max(1))
    }
}

/// The greatest whole number that isn't above this fraction.
#[inline]
fn floor_of(amount: i64, by: i64) -> i64 {
    let by = by.max(1);
    let quotient = amount / by;
    if amount % by < 0 {
        quotient.wrapping_sub(1)
    } else {
        quotient
    }
}
