//! Distinct numbers.

ghost use Rattle.std.specs.Prelude.{◌≡◌, ◌≢◌, ◌∷◌, [], ◌++◌, ℕ, not, length, AllPairs};
ghost use Rattle.std.specs.Prelude.{IfOk, OnOk, OnErr, if◌then◌else◌, nat_eq};
ghost use Rattle.std.specs.List.{list_any};
ghost use Rattle.std.specs.Ordering.{nat_cmp};
ghost use Rattle.std.specs.BTreeSet.{contains};

use std::alloc::{AllocError, Global};
use std::collections::BTreeSet;

/// Numbers in the order in which they were added, each of them once.
#[derive(Drop)]
pub struct NumberSet {
    /// The numbers, in that order.
    pub numbers: Vec<u32>,
    /// The same, by their size.
    sorted: BTreeSet<u32>,
    pub ghost once: { AllPairs (λ a b. a ≢ b) numbers.items },
    ghost same: { (n : ℕ) → contains nat_cmp sorted n ≡ list_any (nat_eq n) numbers.items },
}

impl NumberSet {
    /// No numbers.
    pub fn new(alloc: Global) -> NumberSet
        ensures { result.numbers.items ≡ [] }
    {
        NumberSet {
            numbers: Vec::new(alloc),
            sorted: BTreeSet::new(alloc),
        }
    }

    /// How many numbers there are.
    pub fn len(&self) -> usize
        ensures len { result ≡ length self.now.numbers.items }
    {
        self.numbers.len()
    }

    /// Adds a number, and says whether it is new.
    pub fn add(&mut self, number: u32) -> Result<bool, AllocError>
        ensures new { IfOk result (λ new. new ≡ not (list_any (nat_eq number) self.old.numbers.items)) }
        ensures numbers { OnOk result (self.new.numbers.items
            ≡ (if list_any (nat_eq number) self.old.numbers.items
            then self.old.numbers.items
            else self.old.numbers.items ++ number ∷ [])) }
        ensures kept { OnErr result (self.new.numbers.items ≡ self.old.numbers.items) }
    {
        self.numbers.reserve(1)?;
        if !self.sorted.insert(number)? {
            return Ok(false);
        }
        self.numbers.push(number)?;
        Ok(true)
    }
}
