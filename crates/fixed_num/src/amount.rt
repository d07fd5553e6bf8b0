//! Whole numbers that are added up and kept.
ghost use Rattle.std.specs.Prelude.{◌≡◌, ◌^◌, ◌<◌, pos, ◌+ℤ◌, ◌-ℤ◌, unsigned_abs};

use std::marker::Model;

/// A whole number below 10^37 in absolute value: contracts see it as that number.
#[derive(Clone, Copy)]
pub struct Amount {
    number: i128,
}

impl Model for Amount {
    ghost use Rattle.std.specs.Prelude.{ℤ, ◌<◌, ◌^◌, unsigned_abs};

    ghost Value = { ℤ };

    ghost view = { λ a. a.number };

    ghost invariant = { λ a. unsigned_abs a.number < 10 ^ 37 };

    ghost inverse = { λ z. record { number = z } };
}

impl Amount {
    pub fn zero() -> Amount
        ensures { result ≡ pos 0 }
    {
        Amount { number: 0 }
    }

    pub fn of(number: i128) -> Amount
        requires { unsigned_abs number < 10 ^ 37 }
        ensures { result ≡ number }
    {
        Amount { number }
    }

    pub fn number(self) -> i128
        ensures value { result ≡ self }
        ensures small { unsigned_abs result < 10 ^ 37 }
    {
        self.number
    }

    pub fn plus(self, other: Amount) -> Amount
        requires { unsigned_abs (self +ℤ other) < 10 ^ 37 }
        ensures { result ≡ self +ℤ other }
    {
        Amount {
            number: self.number + other.number,
        }
    }

    pub fn minus(self, other: Amount) -> Amount
        requires { unsigned_abs (self -ℤ other) < 10 ^ 37 }
        ensures { result ≡ self -ℤ other }
    {
        Amount {
            number: self.number - other.number,
        }
    }
}
