//! A sum of counts, which is compared and read only at the cost of a step.
ghost use Rattle.std.specs.Prelude.{◌≡◌, ◌+◌, ◌<◌, ◌^◌, ◌↔◌, pos, ◌+ℤ◌, ◌-ℤ◌, ◌<ℤ◌, unsigned_abs, IsTrue};

use crate::{Fixed, Steps};
use std::marker::Model;
use std::sync::ledger::Ledger;

/// A sum of counts, below 10^24 in absolute value: contracts see it as that whole number.
///
/// It has no order, equality or text of its own, so that each comparison and each reading is counted.
#[derive(Clone, Copy)]
pub struct Sum {
    number: i128,
}

impl Model for Sum {
    ghost use Rattle.std.specs.Prelude.{ℤ, ◌<◌, ◌^◌, unsigned_abs};

    ghost Value = { ℤ };

    ghost view = { λ s. s.number };

    ghost invariant = { λ s. unsigned_abs s.number < 10 ^ 24 };

    ghost inverse = { λ z. record { number = z } };
}

impl Sum {
    pub fn zero() -> Sum
        ensures { result ≡ pos 0 }
    {
        Sum { number: 0 }
    }

    pub fn plus(self, v: Fixed) -> Sum
        requires { unsigned_abs (self +ℤ v) < 10 ^ 24 }
        ensures { result ≡ self +ℤ v }
    {
        Sum {
            number: self.number + v.count(),
        }
    }

    pub fn minus(self, v: Fixed) -> Sum
        requires { unsigned_abs (self -ℤ v) < 10 ^ 24 }
        ensures { result ≡ self -ℤ v }
    {
        Sum {
            number: self.number - v.count(),
        }
    }

    /// Whether `a` is below `b`, in one step.
    pub fn less<L: Ledger>(a: Sum, b: Sum, steps: &mut Steps<L>) -> bool
        ensures value { IsTrue result ↔ (a <ℤ b) }
        ensures cost { steps.new ≡ steps.old + 1 }
    {
        steps.tick();
        a.number < b.number
    }

    /// The sum as a whole number, in one step.
    pub fn value<L: Ledger>(self, steps: &mut Steps<L>) -> i128
        ensures value { result ≡ self }
        ensures small { unsigned_abs result < 10 ^ 24 }
        ensures cost { steps.new ≡ steps.old + 1 }
    {
        steps.tick();
        self.number
    }
}
