//! Loads of a plan on arrays of its own, with a weight on each limit.
//!
//! Amounts are counts of 10^-6, and stop at the ends of their type: nothing rests on them.
ghost use Rattle.std.specs.Prelude.{◌*◌, ◌^◌, ◌<◌, length, unsigned_abs};

use crate::weight::Weight;
use instance_model::Instance;
use std::alloc::{AllocError, Global};

/// What a gap of an eighth of a resource's mean upper limit weighs at first, as a broken exclusion does.
pub(crate) const UNIT: i64 = 1_000_000_000_000;

const EIGHTHS: i64 = 8;

/// A resource in a period.
#[derive(Clone, Copy)]
pub(crate) struct Band {
    load: i64,
    upper: i64,
    lower: i64,
    /// What an amount above the upper limit weighs, and one below the lower limit.
    above: Weight,
    below: Weight,
}

/// An amount in counts of 10^-6.
pub(crate) fn coarse(count: i128) -> i64
    requires { unsigned_abs count < 2 * 10 ^ 20 }
{
    (count / 1_000_000) as i64
}

impl Band {
    /// How far the load is outside its limits.
    #[inline]
    pub(crate) fn gap(self) -> i64 {
        if self.is_over() {
            self.load.saturating_sub(self.upper)
        } else {
            self.lower.saturating_sub(self.load).max(0)
        }
    }

    /// What a load weighs by how far it is outside the limits.
    #[inline]
    fn cost_of(self, load: i64) -> i64 {
        if load > self.upper {
            load.saturating_sub(self.upper)
                .saturating_mul(self.above.now())
        } else if load < self.lower {
            self.lower
                .saturating_sub(load)
                .saturating_mul(self.below.now())
        } else {
            0
        }
    }

    /// What a load below its lower limit weighs, which is the most that any further load takes away; else 0.
    #[inline]
    pub(crate) fn cost_below(self) -> i64 {
        if self.load < self.lower {
            self.cost_of(self.load)
        } else {
            0
        }
    }

    /// By how much the weighed gap grows with `further` on the load.
    #[inline]
    pub(crate) fn rise(self, further: i64) -> i64 {
        let load = self.load.saturating_add(further);
        if self.lower <= load.min(self.load) && load.max(self.load) <= self.upper {
            return 0;
        }
        self.cost_of(load).saturating_sub(self.cost_of(self.load))
    }

    /// From now on the limit weighs more that the load is outside of.
    pub(crate) fn raise(&mut self) {
        if self.is_over() {
            self.above.raise();
        } else {
            self.below.raise();
        }
    }

    /// Takes a part of what weights have grown by.
    pub(crate) fn ease(&mut self) {
        self.above.ease();
        self.below.ease();
    }

    /// Takes all of it.
    pub(crate) fn reset(&mut self) {
        self.above.reset();
        self.below.reset();
    }

    #[inline]
    pub(crate) fn is_over(self) -> bool {
        self.load > self.upper
    }

    /// Puts an amount on the load.
    #[inline]
    pub(crate) fn add(&mut self, amount: i64) {
        self.load = self.load.saturating_add(amount);
    }

    /// Takes an amount off the load.
    #[inline]
    pub(crate) fn take(&mut self, amount: i64) {
        self.load = self.load.saturating_sub(amount);
    }
}

/// What an amount of resource `c` outside its limits weighs at first.
fn first_weight(inst: &Instance, c: u32) -> i64
    requires { c < length inst.now.resource_names }
{
    let mut sum: i64 = 0;
    for t in 1..inst.periods() + 1 {
        sum = sum.saturating_add(coarse(inst.upper(c, t)));
    }
    let mean = sum / i64::from(inst.periods().max(1));
    (EIGHTHS * UNIT / mean.max(1)).max(1)
}

/// Bands without loads, by resource, then period.
pub(crate) fn idle_bands(alloc: Global, inst: &Instance) -> Result<Vec<Band>, AllocError> {
    let mut bands = Vec::new(alloc);
    for c in 0..inst.resources() {
        let weight = Weight::new(first_weight(inst, c));
        for t in 1..inst.periods() + 1 {
            bands.push(Band {
                load: 0,
                upper: coarse(inst.upper(c, t)),
                lower: coarse(inst.lower(c, t)),
                above: weight,
                below: weight,
            })?;
        }
    }
    Ok(bands)
}
