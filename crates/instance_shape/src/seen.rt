//! The keys that an open object has had.

ghost use Rattle.std.specs.Prelude.{◌≡◌, ◌∷◌, [], ◌++◌, false, not, IfOk, OnErr, IsTrue};
ghost use Rattle.instance_shape.specs.Keys.{has_key, by_text};
ghost use Rattle.instance_shape.specs.Seen.{texts_of};

use ordered_keys::KeySet;
use std::alloc::{AllocError, Global};

/// Adds a text, and says whether it is new. After want of memory the keys are as before.
pub fn add_text(alloc: Global, seen: &mut KeySet, text: &str) -> Result<bool, AllocError>
    ensures new { IfOk result
        (λ new. new ≡ not (has_key (texts_of seen.old.added.keys) (by_text text.now))) }
    ensures added { IfOk result
        (λ new. IsTrue new
        → texts_of seen.new.added.keys ≡ texts_of seen.old.added.keys ++ by_text text.now ∷ []) }
    ensures same { IfOk result
        (λ new. new ≡ false → texts_of seen.new.added.keys ≡ texts_of seen.old.added.keys) }
    ensures kept { OnErr result (texts_of seen.new.added.keys ≡ texts_of seen.old.added.keys) }
{
    let new = seen.add(alloc, text)?;
    Ok(new)
}
