//! Numbers of which nearly always each is one above the last.

ghost use Rattle.std.specs.Prelude.{◌≡◌, ◌∷◌, [], ◌++◌, false, not, IfOk, OnErr, IsTrue};
ghost use Rattle.instance_shape.specs.Keys.{has_key, by_number};
ghost use Rattle.instance_shape.specs.Seen.{numbers_of};
ghost use Rattle.shape_walk.specs.Ascending.{comes_next};

use ordered_keys::NumberSet;
use std::alloc::{AllocError, Global};
use std::marker::Model;

/// Numbers in the order taken, each of them once. They take no memory as long as each is one above the last.
#[derive(Drop)]
pub struct NumberKeys {
    run: Run,
    others: NumberSet,
}

impl Model for NumberKeys {
    ghost use Rattle.std.specs.Prelude.{List, ℕ, ◌++◌};

    ghost Value = { List ℕ };

    ghost view = { λ k. k.run ++ k.others.numbers.items };
}

impl NumberKeys {
    /// No numbers.
    pub fn none(alloc: Global) -> NumberKeys
        ensures { result ≡ [] }
    {
        NumberKeys {
            run: Run::none(),
            others: NumberSet::new(alloc),
        }
    }

    /// Adds a number, and says whether it is new. After want of memory the numbers are as before.
    pub fn add(&mut self, number: u32) -> Result<bool, AllocError>
        ensures new { IfOk result (λ new. new ≡ not (has_key (numbers_of self.old) (by_number number))) }
        ensures added { IfOk result (λ new. IsTrue new → self.new ≡ self.old ++ number ∷ []) }
        ensures kept { IfOk result (λ new. new ≡ false → self.new ≡ self.old) }
        ensures err { OnErr result (self.new ≡ self.old) }
    {
        if self.others.len() == 0 && self.run.lengthen(number) {
            return Ok(true);
        }
        if self.run.contains(number) {
            return Ok(false);
        }
        let new = self.others.add(number)?;
        Ok(new)
    }
}

/// Numbers of which each is one above the last.
#[derive(Drop)]
struct Run {
    first: u32,
    count: u64,
}

impl Model for Run {
    ghost use Rattle.std.specs.Prelude.{List, ℕ, ◌+◌, ◌≤◌, ◌^◌};
    ghost use Rattle.shape_walk.specs.Ascending.{ascending};

    ghost Value = { List ℕ };

    ghost view = { λ r. ascending r.first r.count };

    ghost invariant = { λ r. r.first + r.count ≤ 2 ^ 32 };
}

impl Run {
    /// No numbers.
    fn none() -> Run
        ensures { result ≡ [] }
    {
        Run { first: 0, count: 0 }
    }

    /// Whether a number is one of them.
    fn contains(&self, number: u32) -> bool
        ensures { result ≡ has_key (numbers_of self.now) (by_number number) }
    {
        let number = number as u64;
        let first = self.first as u64;
        first <= number && number < first + self.count
    }

    /// Adds a number if it is one above the last, or the first of all, and says whether it was.
    fn lengthen(&mut self, number: u32) -> bool
        ensures next { result ≡ comes_next number self.old }
        ensures new { IsTrue result → has_key (numbers_of self.old) (by_number number) ≡ false }
        ensures added { IsTrue result → self.new ≡ self.old ++ number ∷ [] }
        ensures kept { result ≡ false → self.new ≡ self.old }
    {
        if self.count == 0 {
            self.first = number;
        }
        if number as u64 != self.first as u64 + self.count {
            return false;
        }
        self.count += 1;
        true
    }
}
