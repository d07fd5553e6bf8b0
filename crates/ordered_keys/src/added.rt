//! The keys of a set in the order in which they were added, which only contracts read.

ghost use Rattle.std.specs.Prelude.{◌≡◌, ◌∷◌, [], ◌++◌, ℕ, List};
ghost use Rattle.std.specs.Borrow.{ftrue};

use std::marker::Model;

/// The keys that were added, in that order, each as its bytes. It takes no memory.
#[derive(Drop)]
pub struct Added {
    pub ghost keys: { List (List ℕ) },
}

impl Model for Added {
    ghost also_owns = { λ _. ftrue };
}

impl Added {
    /// No keys.
    pub(crate) fn none() -> Added
        ensures { result.keys ≡ [] }
    {
        Added {}
    }

    /// These, and a further one.
    pub(crate) fn and(&self, _key: &str) -> Added
        ensures { result.keys ≡ self.now.keys ++ _key.now ∷ [] }
    {
        Added {}
    }
}
