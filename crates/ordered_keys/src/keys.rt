//! Distinct keys, of which only membership and number are asked.

ghost use Rattle.std.specs.Prelude.{◌≡◌, ◌≢◌, ◌≤◌, ◌∷◌, [], ◌++◌, ◌+◌, ℕ, List, true, not, length, AllPairs};
ghost use Rattle.std.specs.Prelude.{IfOk, OnOk, OnErr, IfSome, Some, None, cond, if◌then◌else◌, nat_le, bytes_eq};
ghost use Rattle.std.specs.List.{list_any};
ghost use Rattle.std.specs.Ordering.{nat_cmp};
ghost use Rattle.std.specs.BTreeSet.{btree_set_len, contains, contains_text};
ghost use Rattle.ordered_keys.specs.Marks.{is_short, mark};

use crate::added::Added;
use std::alloc::{AllocError, Global};
use std::collections::BTreeSet;

/// Keys, each of them once. One of at most 15 bytes takes no memory of its own.
#[derive(Drop)]
pub struct KeySet {
    /// The keys, in the order in which they were added.
    pub added: Added,
    /// Those of at most 15 bytes, each as a number that tells it from all others.
    short: BTreeSet<u128>,
    /// The longer ones.
    long: BTreeSet<String>,
    pub ghost once: { AllPairs (λ a b. a ≢ b) added.keys },
    ghost each: { length added.keys ≡ btree_set_len short + btree_set_len long },
    ghost as_numbers: { (q : List ℕ) → is_short q ≡ true
        → contains nat_cmp short (mark q) ≡ list_any (bytes_eq q) added.keys },
    ghost as_texts: { (q : List ℕ) → 16 ≤ length q → contains_text long q ≡ list_any (bytes_eq q) added.keys },
}

impl KeySet {
    /// No keys.
    pub fn new(alloc: Global) -> KeySet
        ensures { result.added.keys ≡ [] }
    {
        KeySet {
            added: Added::none(),
            short: BTreeSet::new(alloc),
            long: BTreeSet::new(alloc),
        }
    }

    /// How many keys there are.
    pub fn len(&self) -> usize
        ensures len { result ≡ length self.now.added.keys }
    {
        self.short.len() + self.long.len()
    }

    /// Whether a key is one of them.
    pub fn contains(&self, key: &str) -> bool
        ensures { result ≡ list_any (bytes_eq key.now) self.now.added.keys }
    {
        match short_mark(key) {
            Some(number) => self.short.contains(&number),
            None => self.long.contains(key),
        }
    }

    /// Adds a key, and says whether it is new.
    pub fn add(&mut self, alloc: Global, key: &str) -> Result<bool, AllocError>
        ensures new { IfOk result (λ new. new ≡ not (list_any (bytes_eq key.now) self.old.added.keys)) }
        ensures added { OnOk result (self.new.added.keys
            ≡ (if list_any (bytes_eq key.now) self.old.added.keys
            then self.old.added.keys
            else self.old.added.keys ++ key.now ∷ [])) }
        ensures kept { OnErr result (self.new.added.keys ≡ self.old.added.keys) }
    {
        match short_mark(key) {
            Some(number) => self.add_short(key, number),
            None => self.add_long(alloc, key),
        }
    }

    /// Adds a key of at most 15 bytes, given its number.
    fn add_short(&mut self, key: &str, number: u128) -> Result<bool, AllocError>
        requires short { is_short key.now ≡ true }
        requires number { number ≡ mark key.now }
        ensures new { IfOk result (λ new. new ≡ not (list_any (bytes_eq key.now) self.old.added.keys)) }
        ensures added { OnOk result (self.new.added.keys
            ≡ (if list_any (bytes_eq key.now) self.old.added.keys
            then self.old.added.keys
            else self.old.added.keys ++ key.now ∷ [])) }
        ensures kept { OnErr result (self.new.added.keys ≡ self.old.added.keys) }
    {
        if !self.short.insert(number)? {
            return Ok(false);
        }
        self.added = self.added.and(key);
        Ok(true)
    }

    /// Adds a longer key.
    fn add_long(&mut self, alloc: Global, key: &str) -> Result<bool, AllocError>
        requires { 16 ≤ length key.now }
        ensures new { IfOk result (λ new. new ≡ not (list_any (bytes_eq key.now) self.old.added.keys)) }
        ensures added { OnOk result (self.new.added.keys
            ≡ (if list_any (bytes_eq key.now) self.old.added.keys
            then self.old.added.keys
            else self.old.added.keys ++ key.now ∷ [])) }
        ensures kept { OnErr result (self.new.added.keys ≡ self.old.added.keys) }
    {
        let copy = String::from_str(alloc, key)?;
        if !self.long.insert(copy)? {
            return Ok(false);
        }
        self.added = self.added.and(key);
        Ok(true)
    }
}

/// The number of a key of at most 15 bytes.
fn short_mark(key: &str) -> Option<u128>
    ensures number { result ≡ cond (nat_le (length key.now) 15) (Some (mark key.now)) None }
    ensures bytes { IfSome result (λ _. is_short key.now ≡ true) }
{
    let bytes = key.as_bytes();
    if bytes.len() > 15 {
        return None;
    }
    let mut number: u128 = 1;
    for byte in bytes {
        number = number * 256 + u128::from(*byte);
    }
    Some(number)
}
