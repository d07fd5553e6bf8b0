//! Whole units in which the rounds count: the mean risk and the mean load come to 65,536 of them. The value of one unit
//! of risk comes to 2^20 parts.
//!
//! Amounts stop at the ends of their type: nothing rests on them.
ghost use Rattle.std.specs.Prelude.{◌≤◌};

/// The value of one unit of risk; what the weights of a group come to where the excess alone counts.
pub(crate) const PARTS: i64 = 1_048_576;

/// What the mean amount comes to in units.
pub(crate) const MEAN: i64 = 65_536;

/// The greatest risk in units.
const MOST_RISK: i128 = 1_073_741_824;

/// The greatest load in units.
const MOST_LOAD: i128 = 1_099_511_627_776;

/// The greatest price.
const MOST_PRICE: i128 = 1_000_000_000;

/// A sum of sizes, and of how many.
#[derive(Clone, Copy)]
pub(crate) struct Mean {
    sum: i128,
    pub(crate) count: u64,
}

impl Mean {
    pub(crate) fn none() -> Mean {
        Mean { sum: 0, count: 0 }
    }

    /// Takes in the size of an amount.
    pub(crate) fn add(&mut self, amount: i128) {
        self.sum = self.sum.saturating_add(amount.saturating_abs());
        self.count = self.count.saturating_add(1);
    }

    /// What 65,536 of make the mean, at least 1.
    fn unit(self) -> i128 {
        let mean = self.sum / i128::from(self.count.max(1));
        (mean / i128::from(MEAN)).max(1)
    }
}

/// How many counts of 10^-12 a unit of risk has, and a unit of load.
#[derive(Clone, Copy)]
pub(crate) struct Units {
    risk: i128,
    load: i128,
}

/// The nearest whole quotient, as a price: from 0 to the greatest one.
fn price_of(amount: i128, by: i128) -> u32
    ensures { result ≤ 1_000_000_000 }
{
    let by = by.max(1);
    (amount.saturating_add(by / 2) / by).clamp(0, MOST_PRICE) as u32
}

impl Units {
    pub(crate) fn new(risks: Mean, loads: Mean) -> Units {
        Units {
            risk: risks.unit(),
            load: loads.unit(),
        }
    }

    /// A risk in units.
    pub(crate) fn risk(self, count: i128) -> i32 {
        (count / self.risk.max(1)).clamp(-MOST_RISK, MOST_RISK) as i32
    }

    /// A load or a limit in units.
    pub(crate) fn load(self, count: i128) -> i64 {
        (count / self.load.max(1)).clamp(-MOST_LOAD, MOST_LOAD) as i64
    }

    /// A value in parts, in counts of 10^-18 times a million.
    fn counts(self, value: i64) -> i128 {
        i128::from(value).saturating_mul(self.risk)
    }

    /// The price on a limit, of what it adds for each unit of load.
    pub(crate) fn limit_price(self, value: i64) -> u32
        ensures { result ≤ 1_000_000_000 }
    {
        price_of(
            self.counts(value).saturating_mul(1_000_000),
            self.load.saturating_mul(i128::from(PARTS)),
        )
    }

    /// The price of a clique, of what it adds.
    pub(crate) fn clique_price(self, value: i64) -> u32 {
        price_of(
            self.counts(value),
            i128::from(PARTS).saturating_mul(1_000_000),
        )
    }

    /// An offset, of what it adds, where the weights of a group come to `weight`.
    pub(crate) fn offset(self, value: i64, weight: i64) -> u32 {
        price_of(
            self.counts(value),
            i128::from(weight).saturating_mul(1_000_000_000),
        )
    }
}
