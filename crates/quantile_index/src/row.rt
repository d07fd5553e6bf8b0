//! The trait of rows of scenario sums: contracts see a row as the list of its sums, by scenario.
use fixed_num::{Steps, Sum};
use std::alloc::{AllocError, Global};
use std::sync::ledger::Ledger;

/// A finite map from the scenarios 1 to n to sums, in which the m-th smallest sum is found.
pub trait Row: Drop {
    ghost use Rattle.std.specs.Prelude.{◌≡◌, ℕ, ◌+◌, ◌-◌, ◌*◌, ◌≤◌, ℤ, pos, List, Option, length, slice_index_or};
    ghost use Rattle.std.specs.Prelude.{slice_set, IfOk, IfSome};
    ghost use Rattle.fixed_num.specs.Rank.{IsMthSmallest, mth_smallest};
    ghost use Rattle.quantile_index.specs.Row.{Grows};

    /// The sums of the scenarios 1, 2 and so on.
    ghost sums: { Self → List ℤ };

    /// How many steps a change of a row of n sums takes at most, for every n; or
    /// nothing, where nothing is claimed of steps.
    ghost most: { Option (ℕ → ℕ) };

    /// The row of 1 to 1,024 sums.
    fn make(alloc: Global, from: &[Sum]) -> Result<Self, AllocError>
        requires some { 1 ≤ length from.now }
        requires few { length from.now ≤ 1024 }
        ensures { IfOk result (λ row. sums row ≡ from.now) };

    /// How many scenarios the row has.
    fn len(&self) -> u32
        ensures value { result ≡ length (sums self.now) }
        ensures some { 1 ≤ result }
        ensures few { result ≤ 1024 };

    /// The sum of scenario `k`.
    fn get(&self, k: u32) -> Sum
        requires first { 1 ≤ k }
        requires last { k ≤ length (sums self.now) }
        ensures { result ≡ slice_index_or (sums self.now) (k - 1) (pos 0) };

    /// Changes the sum of scenario `k`, and no other.
    fn replace<L: Ledger>(&mut self, k: u32, sum: Sum, steps: &mut Steps<L>)
        requires first { 1 ≤ k }
        requires last { k ≤ length (sums self.old) }
        ensures map { sums self.new ≡ slice_set (sums self.old) (k - 1) sum }
        ensures cost { IfSome most (λ bound. steps.new ≤ steps.old + bound (length (sums self.old))) }
        ensures forward { steps.old ≤ steps.new };

    /// Changes all sums. Reads each once, and counts no comparison inside the sort of the numbers that were read; the
    /// bound is that of as many single changes.
    fn replace_all<L: Ledger>(&mut self, from: &[Sum], steps: &mut Steps<L>)
        requires each { length from.now ≡ length (sums self.old) }
        ensures map { sums self.new ≡ from.now }
        ensures cost { IfSome most (λ bound. steps.new ≤ steps.old + length from.now * bound (length from.now)) }
        ensures counted { steps.new ≡ steps.old + length from.now };

    /// The `m`-th smallest sum, where equal sums count as often as they are there.
    fn kth<L: Ledger>(&self, m: u32, steps: &mut Steps<L>) -> Sum
        requires first { 1 ≤ m }
        requires last { m ≤ length (sums self.now) }
        ensures kth { IsMthSmallest m (sums self.now) result }
        ensures value { result ≡ mth_smallest m (sums self.now) }
        ensures cost { IfSome most (λ _. steps.new ≡ steps.old) }
        ensures forward { steps.old ≤ steps.new };

    /// The bound of a longer row is no smaller.
    ghost grows: { IfSome most Grows };
}
