//! The leaves that wait, by their worths: contracts see a list of a worth and a number each, in no order.
ghost use Rattle.std.specs.Prelude.{◌≡◌, [], ◌∷◌, ◌≤ℤ◌, All, Contains, IfSome, IfNone, OnOk, IsPermutation};
ghost use Rattle.branch_search.specs.Entries.{with_entry};

use std::alloc::{AllocError, Global};
use std::cmp::Reverse;
use std::collections::BinaryHeap;
use std::marker::Model;

/// The numbers of leaves that wait, each with its worth. The one of least worth comes first, the greatest number of
/// those of the same worth: its box was made last, so a plan is met soon.
#[derive(Drop)]
pub(crate) struct Waiting {
    heap: BinaryHeap<Reverse<(i128, Reverse<usize>)>>,
}

impl Model for Waiting {
    ghost use Rattle.std.specs.Prelude.{ℕ, ℤ, List};

    ghost Value = { List (ℤ × ℕ) };

    ghost use Rattle.std.specs.Prelude.{map};
    ghost use Rattle.std.specs.BinaryHeap.{IsHeap, heap_items};

    ghost view = { λ w. map (λ r. (r.0.0, r.0.1.0)) (heap_items w.heap) };

    ghost invariant = { λ w. IsHeap ⟦<Reverse<(i128, Reverse<usize>)> as Ord>⟧.cmp (heap_items w.heap) };
}

/// The worth and the number of a key.
fn entry_of(key: (i128, Reverse<usize>)) -> (i128, usize)
    ensures { result ≡ (key.0, key.1.0) }
{
    let (worth, Reverse(number)) = key;
    (worth, number)
}

impl Waiting {
    pub(crate) fn new(alloc: Global) -> Waiting
        ensures { result ≡ [] }
    {
        Waiting {
            heap: BinaryHeap::new(alloc),
        }
    }

    pub(crate) fn push(&mut self, worth: i128, number: usize) -> Result<(), AllocError>
        ensures { OnOk result (IsPermutation ((worth, number) ∷ self.old) self.new) }
    {
        self.heap.push(Reverse((worth, Reverse(number))))?;
        Ok(())
    }

    /// Takes the first one out.
    pub(crate) fn pop(&mut self) -> Option<(i128, usize)>
        ensures same { IfSome result (λ entry. IsPermutation self.old (entry ∷ self.new)) }
        ensures least { IfSome result (λ entry. All (λ other. entry.0 ≤ℤ other.0) self.new) }
        ensures none { IfNone result (self.old ≡ []) }
    {
        match self.heap.pop() {
            Some(Reverse(key)) => Some(entry_of(key)),
            None => None,
        }
    }

    /// The least worth.
    pub(crate) fn least(&self) -> Option<(i128, usize)>
        ensures member { IfSome result (λ entry. Contains self.now entry) }
        ensures least { IfSome result (λ entry. All (λ other. entry.0 ≤ℤ other.0) self.now) }
        ensures none { IfNone result (self.now ≡ []) }
    {
        match self.heap.peek() {
            Some(Reverse(key)) => Some(entry_of(*key)),
            None => None,
        }
    }
}

/// Adds a number where it has a worth.
pub(crate) fn await_leaf(
    waiting: &mut Waiting,
    worth: Option<i128>,
    number: usize,
) -> Result<(), AllocError>
    ensures { OnOk result (IsPermutation (with_entry worth number waiting.old) waiting.new) }
{
    if let Some(worth) = worth {
        waiting.push(worth, number)?;
    }
    Ok(())
}
