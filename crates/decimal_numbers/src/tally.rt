//! Digits as they come, rounded behind the last one that is kept.
ghost use Rattle.std.specs.Prelude.{◌≡◌, ◌<◌, ◌+◌, ◌-◌, ◌*◌, ◌^◌, ◌++◌, ℕ, length, nat_lt};
ghost use Rattle.json_grammar.specs.Grammar.{IsDigit};
ghost use Rattle.decimal_numbers.specs.Decimal.{number, number_from};
ghost use Rattle.decimal_numbers.specs.Scaling.{AreAllDigits, Rounds};
ghost use Rattle.decimal_numbers.specs.Tallies.{IsTally, TailIs};

use crate::digits::{next_size, scaled_size, with_digit};

/// What the digits behind the last kept one come to, against half a unit of that one.
#[derive(Clone, Copy, Drop)]
pub(crate) enum Tail {
    Empty,
    Zero,
    Low,
    High,
}

/// A size that was rounded; none where it is at least 10^20.
#[derive(Clone, Copy, Drop)]
pub(crate) struct Rounded {
    pub size: Option<u128>,
    pub differs: bool,
}

/// The number of the digits that are kept, how many more are to be kept, and what the dropped ones come to.
#[derive(Clone, Copy, Drop)]
pub(crate) struct Tally {
    kept: Option<u128>,
    left: u128,
    tail: Tail,
}

impl Tail {
    fn push(self, digit: u8) -> Tail
        requires { IsDigit digit }
        ensures { (w r : ℕ) → 0 < w → TailIs self w r → TailIs result (w * 10) (r * 10 + (digit - 48)) }
    {
        match self {
            Tail::Low => Tail::Low,
            Tail::High => Tail::High,
            Tail::Zero => { if digit == b'0' { Tail::Zero } else { Tail::Low } }
            Tail::Empty => match digit {
                b'0' => Tail::Zero,
                b'1'..=b'4' => Tail::Low,
                _ => Tail::High,
            },
        }
    }
}

impl Tally {
    fn new(keep: u128) -> Tally
        ensures { IsTally result keep 0 0 }
    {
        Tally {
            kept: Some(0),
            left: keep,
            tail: Tail::Empty,
        }
    }

    fn push(&mut self, digit: u8)
        requires { IsDigit digit }
        ensures { (keep n count : ℕ) → IsTally self.old keep n count →
            IsTally self.new keep (n * 10 + (digit - 48)) (count + 1) }
    {
        if self.left == 0 {
            self.tail = self.tail.push(digit);
            return;
        }
        self.left -= 1;
        self.kept = with_digit(self.kept, digit);
    }

    fn push_all(&mut self, digits: &[u8])
        requires { AreAllDigits digits.now }
        ensures { (keep n count : ℕ) → IsTally self.old keep n count →
            IsTally self.new keep (number_from n digits.now) (count + length digits.now) }
    {
        for digit in digits {
            self.push(*digit);
        }
    }

    /// The digits before and behind a point, of which so many are kept.
    pub(crate) fn of(whole: &[u8], fraction: &[u8], keep: u128) -> Tally
        requires whole { AreAllDigits whole.now }
        requires fraction { AreAllDigits fraction.now }
        ensures { IsTally result keep (number (whole.now ++ fraction.now)) (length whole.now + length fraction.now) }
    {
        let mut tally = Tally::new(keep);
        tally.push_all(whole);
        tally.push_all(fraction);
        tally
    }

    /// Whether a dropped digit isn't 0.
    pub(crate) fn differs(self) -> bool
        ensures { (keep n count : ℕ) → IsTally self keep n count → keep ≡ 0 → n < 10 ^ count → result
            ≡ nat_lt 0 n }
    {
        matches!(self.tail, Tail::Low | Tail::High)
    }

    /// The number of the digits that are kept, rounded by the dropped ones, with zeros for those that are missing.
    pub(crate) fn rounded(self) -> Rounded
        ensures { (keep n count p q : ℕ) → keep + q ≡ count + p → IsTally self keep n count →
            Rounds (n * 10 ^ p) (10 ^ q) result.size result.differs }
    {
        match self.tail {
            Tail::Empty | Tail::Zero => Rounded {
                size: scaled_size(self.kept, self.left),
                differs: false,
            },
            Tail::Low => Rounded {
                size: scaled_size(self.kept, self.left),
                differs: true,
            },
            Tail::High => Rounded {
                size: next_size(self.kept),
                differs: true,
            },
        }
    }
}
