//! A count of 10^-12.
ghost use Rattle.std.specs.Prelude.{◌≡◌, ◌^◌, ◌<◌, ◌≤◌, ◌↔◌, pos, unsigned_abs, IfOk, OnOk, IsErr};

use std::error::Error;
use std::fmt;
use std::marker::Model;

/// The count is not below 10^20 in absolute value.
#[derive(Clone, Copy, Debug, PartialEq, Eq)]
pub struct TooLarge;

impl fmt::Display for TooLarge {
    fn fmt<W: fmt::Write>(&self, f: &mut fmt::Formatter<W>) -> fmt::Result {
        f.write_str("the count is not below 10^20 in absolute value")
    }
}

impl Error for TooLarge {}

/// A count of 10^-12, below 10^20 in absolute value: contracts see it as that whole number.
#[derive(Clone, Copy, Debug, PartialEq, Eq)]
pub struct Fixed {
    number: i128,
}

impl Model for Fixed {
    ghost use Rattle.std.specs.Prelude.{ℤ, ◌<◌, ◌^◌, unsigned_abs};

    ghost Value = { ℤ };

    ghost view = { λ f. f.number };

    ghost invariant = { λ f. unsigned_abs f.number < 10 ^ 20 };

    ghost inverse = { λ z. record { number = z } };
}

impl Fixed {
    /// The least absolute value of a count that is too large.
    const LIMIT: u128 = 100_000_000_000_000_000_000;

    pub fn zero() -> Fixed
        ensures { result ≡ pos 0 }
    {
        Fixed { number: 0 }
    }

    pub fn from_count(count: i128) -> Result<Fixed, TooLarge>
        ensures value { IfOk result (λ fixed. fixed ≡ count) }
        ensures small { OnOk result (unsigned_abs count < 10 ^ 20) }
        ensures too_large { IsErr result ↔ (10 ^ 20 ≤ unsigned_abs count) }
    {
        if count.unsigned_abs() < Fixed::LIMIT {
            Ok(Fixed { number: count })
        } else {
            Err(TooLarge)
        }
    }

    pub fn count(self) -> i128
        ensures value { result ≡ self }
        ensures small { unsigned_abs result < 10 ^ 20 }
    {
        self.number
    }
}

impl From<i64> for Fixed {
    ghost use Rattle.std.specs.Prelude.{◌≡◌};

    ghost from_gives = { λ count fixed. fixed ≡ count };

    #[inline]
    fn from(count: i64) -> Fixed {
        Fixed {
            number: i128::from(count),
        }
    }
}

impl From<u64> for Fixed {
    ghost use Rattle.std.specs.Prelude.{◌≡◌, pos};

    ghost from_gives = { λ count fixed. fixed ≡ pos count };

    #[inline]
    fn from(count: u64) -> Fixed {
        Fixed {
            number: i128::from(count),
        }
    }
}
