//! A scenario sum with its scenario, and the order of such entries in counted steps.
ghost use Rattle.std.specs.Prelude.{◌≡◌, true, false, ◌+◌, ◌≤◌};
ghost use Rattle.quantile_index.specs.Order.{IsBefore};

use fixed_num::{Steps, Sum};
use std::cmp::Ordering;
use std::sync::ledger::Ledger;

/// A sum with the scenario that it is of. Entries are ordered by sum, then scenario.
#[derive(Clone, Copy)]
pub struct Entry {
    pub sum: Sum,
    pub scenario: u32,
}

/// The order of two entries, in at most two steps.
pub fn order<L: Ledger>(a: &Entry, b: &Entry, steps: &mut Steps<L>) -> Ordering
    ensures less { result ≡ Ordering.Less → IsBefore a.now b.now }
    ensures equal { result ≡ Ordering.Equal → a.now ≡ b.now }
    ensures greater { result ≡ Ordering.Greater → IsBefore b.now a.now }
    ensures cost { steps.new ≤ steps.old + 2 }
    ensures forward { steps.old ≤ steps.new }
{
    if Sum::less(a.sum, b.sum, steps) {
        Ordering::Less
    } else if Sum::less(b.sum, a.sum, steps) {
        Ordering::Greater
    } else {
        a.scenario.cmp(&b.scenario)
    }
}

/// Whether `a` comes before `b`, in at most two steps.
pub fn is_before<L: Ledger>(a: &Entry, b: &Entry, steps: &mut Steps<L>) -> bool
    ensures before { result ≡ true → IsBefore a.now b.now }
    ensures after { result ≡ false → (a.now ≡ b.now → ⊥) → IsBefore b.now a.now }
    ensures cost { steps.new ≤ steps.old + 2 }
    ensures forward { steps.old ≤ steps.new }
{
    match order(a, b, steps) {
        Ordering::Less => true,
        Ordering::Equal | Ordering::Greater => false,
    }
}
