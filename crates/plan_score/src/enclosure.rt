//! Sums of quotients, rounded down and up: a contract says by how much each grows.
ghost use Rattle.std.specs.Prelude.{◌≡◌, ◌+◌, ◌≤◌, ◌^◌, pos, ◌+ℤ◌, ◌-ℤ◌, unsigned_abs};
ghost use Rattle.std.specs.Int.{int_max};
ghost use Rattle.fixed_num.specs.Floors.{floor_of, ceil_of};

use fixed_num::{ceil_div, floor_div};

/// A sum of quotients, each rounded down, and one of the same quotients rounded up.
#[derive(Drop)]
pub(crate) struct Enclosure {
    pub(crate) low: i128,
    pub(crate) high: i128,
}

impl Enclosure {
    /// Takes `value / n` into both sums.
    pub(crate) fn add(&mut self, value: i128, n: u32)
        requires some { 1 ≤ n }
        requires value { unsigned_abs value ≤ 10 ^ 33 }
        requires low { unsigned_abs self.old.low ≤ 10 ^ 36 }
        requires high { unsigned_abs self.old.high ≤ 10 ^ 36 }
        ensures low { self.new.low ≡ self.old.low +ℤ floor_of value n }
        ensures high { self.new.high ≡ self.old.high +ℤ ceil_of value n }
        ensures low_small { unsigned_abs self.new.low ≤ unsigned_abs self.old.low + 10 ^ 33 }
        ensures high_small { unsigned_abs self.new.high ≤ unsigned_abs self.old.high + 10 ^ 33 }
    {
        self.low += floor_div(value, n as i128);
        self.high += ceil_div(value, n as i128);
    }

    /// Takes `value / n` into both sums, less and more a margin, but nothing below 0 into the first.
    pub(crate) fn add_above_zero(&mut self, value: i128, n: u32, margin: u32)
        requires some { 1 ≤ n }
        requires few { margin ≤ 1024 }
        requires value { unsigned_abs value ≤ 10 ^ 32 }
        requires low { unsigned_abs self.old.low ≤ 10 ^ 36 }
        requires high { unsigned_abs self.old.high ≤ 10 ^ 36 }
        ensures low { self.new.low ≡ self.old.low +ℤ int_max (pos 0) (floor_of value n -ℤ pos margin) }
        ensures high { self.new.high ≡ self.old.high +ℤ (ceil_of value n +ℤ pos margin) }
        ensures low_small { unsigned_abs self.new.low ≤ unsigned_abs self.old.low + 10 ^ 33 }
        ensures high_small { unsigned_abs self.new.high ≤ unsigned_abs self.old.high + 10 ^ 33 }
    {
        self.low += floor_above_zero(value, n, margin);
        self.high += ceil_and_more(value, n, margin);
    }

    /// The sums, made less and more by a margin, as shares of `by`, rounded down and up.
    pub(crate) fn shares(&self, margin: u64, by: u32) -> (i128, i128)
        requires some { 1 ≤ by }
        requires few { margin ≤ 10 ^ 16 }
        requires low { unsigned_abs self.now.low ≤ 10 ^ 36 }
        requires high { unsigned_abs self.now.high ≤ 10 ^ 36 }
        ensures low { result.0 ≡ floor_of (self.now.low -ℤ pos margin) by }
        ensures high { result.1 ≡ ceil_of (self.now.high +ℤ pos margin) by }
        ensures low_small { unsigned_abs result.0 ≤ 10 ^ 37 }
        ensures high_small { unsigned_abs result.1 ≤ 10 ^ 37 }
    {
        let low = self.low - margin as i128;
        let high = self.high + margin as i128;
        (floor_div(low, by as i128), ceil_div(high, by as i128))
    }
}

/// `value / n` rounded down and less a margin in the same unit, but not below 0.
pub fn floor_above_zero(value: i128, n: u32, margin: u32) -> i128
    requires some { 1 ≤ n }
    requires few { margin ≤ 1024 }
    requires value { unsigned_abs value ≤ 10 ^ 32 }
    ensures value { result ≡ int_max (pos 0) (floor_of value n -ℤ pos margin) }
    ensures small { unsigned_abs result ≤ 10 ^ 33 }
{
    let low = floor_div(value, n as i128) - margin as i128;
    0_i128.max(low)
}

/// `value / n` rounded up and more by a margin in the same unit.
pub fn ceil_and_more(value: i128, n: u32, margin: u32) -> i128
    requires some { 1 ≤ n }
    requires few { margin ≤ 1024 }
    requires value { unsigned_abs value ≤ 10 ^ 32 }
    ensures value { result ≡ ceil_of value n +ℤ pos margin }
    ensures small { unsigned_abs result ≤ 10 ^ 33 }
{
    ceil_div(value, n as i128) + margin as i128
}
