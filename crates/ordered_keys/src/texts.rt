//! Distinct texts.

ghost use Rattle.std.specs.Prelude.{◌≡◌, ◌≢◌, ◌∷◌, [], ◌++◌, not, length, map, position, AllPairs};
ghost use Rattle.std.specs.Prelude.{IfOk, OnOk, OnErr, if◌then◌else◌, bytes_eq, string_bytes, string_eq};
ghost use Rattle.std.specs.List.{list_any};
ghost use Rattle.indexmap.specs.IndexSet.{insert_all};

use crate::hashes::TextHashes;
use indexmap::IndexSet;
use std::alloc::{AllocError, Global};

/// Texts in the order in which they were added, each of them once.
pub struct TextSet {
    /// The texts, in that order.
    pub texts: IndexSet<String, TextHashes>,
    pub ghost once: { AllPairs (λ a b. a ≢ b) (map string_bytes texts.keys) },
}

/// A proof goes through this call where a set is let go, and not through its table.
impl Drop for TextSet {
    fn drop(self) {
        let TextSet { texts: _ } = self;
    }
}

impl TextSet {
    /// No texts.
    pub fn new(alloc: Global) -> TextSet
        ensures { result.texts.keys ≡ [] }
    {
        TextSet {
            texts: IndexSet::with_hasher(alloc, TextHashes::of(&[])),
        }
    }

    /// The texts of a list, each of them where it stands first.
    pub fn from_vec(alloc: Global, texts: Vec<String>) -> Result<TextSet, AllocError>
        ensures texts { IfOk result (λ set. set.texts.keys ≡ insert_all string_eq [] texts.items) }
    {
        let hashes = TextHashes::of(texts.as_slice());
        let mut set = TextSet {
            texts: IndexSet::with_capacity_and_hasher(alloc, texts.len(), hashes)?,
        };
        for text in texts {
            set.add(text)?;
        }
        Ok(set)
    }

    /// How many texts there are.
    pub fn len(&self) -> usize
        ensures len { result ≡ length self.now.texts.keys }
    {
        self.texts.len()
    }

    /// The texts, in the order in which they were added.
    pub fn as_slice(&self) -> &[String]
        ensures texts { result.now ≡ self.now.texts.keys }
    {
        self.texts.as_slice()
    }

    /// Where a text stands among them, from 0.
    pub fn index_of(&self, text: &str) -> Option<usize>
        ensures index { result ≡ position (λ k. bytes_eq text.now (string_bytes k)) self.now.texts.keys }
    {
        self.texts.get_index_of(text)
    }

    /// Adds a text, and says whether it is new. Texts that somebody else chooses are all made a set at once, by
    /// `from_vec`.
    pub fn add(&mut self, text: String) -> Result<bool, AllocError>
        ensures new { IfOk result (λ new. new ≡ not (list_any (string_eq text) self.old.texts.keys)) }
        ensures texts { OnOk result (self.new.texts.keys
            ≡ (if list_any (string_eq text) self.old.texts.keys
            then self.old.texts.keys
            else self.old.texts.keys ++ text ∷ [])) }
        ensures kept { OnErr result (self.new.texts.keys ≡ self.old.texts.keys) }
    {
        Ok(self.texts.insert(text)?)
    }
}
