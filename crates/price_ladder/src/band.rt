//! The limits of resources with their prices, while the first phase moves these.
//!
//! Loads are counts of 10^-6, and what prices make of them is in parts of 10^-12. Amounts stop at the ends of their
//! type: nothing rests on them.
ghost use Rattle.std.specs.Prelude.{◌≡◌, ◌*◌, ◌^◌, ◌<◌, ◌≤◌, length, IfOk, unsigned_abs};
ghost use Rattle.lagrange_bound.specs.Prices.{IsPriceList};
ghost use Rattle.lagrange_bound.specs.Changes.{IsBandPlace};

use crate::number::Number;
use instance_model::Instance;
use lagrange_bound::Prices;
use std::alloc::{AllocError, Global};

/// The limits of a resource in a period, the prices on them, and its load by the starts of least price.
#[derive(Clone, Copy)]
pub(crate) struct Band {
    most: i64,
    least: i64,
    upper: Number,
    lower: Number,
    load: i64,
}

/// An amount in counts of 10^-6.
pub(crate) fn coarse(count: i128) -> i64
    requires { unsigned_abs count < 2 * 10 ^ 20 }
{
    (count / 1_000_000) as i64
}

impl Band {
    fn new(inst: &Instance, prices: &Prices, c: u32, t: u32) -> Band
        requires prices { IsPriceList inst.now prices.now }
        requires place { IsBandPlace inst.now c t }
    {
        Band {
            most: coarse(inst.upper(c, t)),
            least: coarse(inst.lower(c, t)),
            upper: Number::new(prices.up(inst, c, t)),
            lower: Number::new(prices.lo(inst, c, t)),
            load: 0,
        }
    }

    /// What the prices add for each unit of load.
    pub(crate) fn rate(self) -> i64 {
        self.upper.value().saturating_sub(self.lower.value())
    }

    /// What they add whatever the load is.
    fn fixed(self) -> i64 {
        let least = self.lower.value().saturating_mul(self.least);
        least.saturating_sub(self.upper.value().saturating_mul(self.most))
    }

    /// The best prices on the upper and the lower limit.
    pub(crate) fn best(self) -> (u32, u32)
        ensures upper { result.0 ≤ 1_000_000_000 }
        ensures lower { result.1 ≤ 1_000_000_000 }
    {
        (self.upper.best(), self.lower.best())
    }

    pub(crate) fn clear_load(&mut self) {
        self.load = 0;
    }

    pub(crate) fn add_load(&mut self, load: i64) {
        self.load = self.load.saturating_add(load);
    }

    /// How far the load is outside its limits pulls the prices.
    fn pull(&mut self) {
        self.upper.pull(self.load.saturating_sub(self.most));
        self.lower.pull(self.least.saturating_sub(self.load));
    }
}

/// The bands with these prices, by resource, then period.
pub(crate) fn bands_of(
    alloc: Global,
    inst: &Instance,
    prices: &Prices,
) -> Result<Vec<Band>, AllocError>
    requires { IsPriceList inst.now prices.now }
    ensures { IfOk result (λ bands. length bands.items ≡ length inst.now.resource_names * inst.now.periods) }
{
    let mut bands = Vec::new(alloc);
    for c in 0..inst.resources() {
        for t in 1..inst.periods() + 1 {
            bands.push(Band::new(inst, prices, c, t))?;
        }
    }
    Ok(bands)
}

/// What the prices add whatever the loads are.
pub(crate) fn fixed_of_bands(bands: &[Band]) -> i64 {
    let mut sum: i64 = 0;
    for band in bands {
        sum = sum.saturating_add(band.fixed());
    }
    sum
}

pub(crate) fn pull_bands(bands: &mut [Band]) {
    for band in bands.iter_mut() {
        band.pull();
    }
}

/// The sum of the squares of all pulls.
pub(crate) fn squares_of_bands(bands: &[Band]) -> i128 {
    let mut sum: i128 = 0;
    for band in bands {
        let both = band.upper.square().saturating_add(band.lower.square());
        sum = sum.saturating_add(both);
    }
    sum
}

/// Moves each price by the share of `way` that its pull has in a sum of squares.
pub(crate) fn move_bands(bands: &mut [Band], way: i128, squares: i128) {
    for band in bands.iter_mut() {
        band.upper.go(way, squares);
        band.lower.go(way, squares);
    }
}

/// Notes that these are the best prices so far.
pub(crate) fn keep_bands(bands: &mut [Band]) {
    for band in bands.iter_mut() {
        band.upper.keep();
        band.lower.keep();
    }
}

/// Goes back to the best prices.
pub(crate) fn take_back_bands(bands: &mut [Band]) {
    for band in bands.iter_mut() {
        band.upper.take_back();
        band.lower.take_back();
    }
}
