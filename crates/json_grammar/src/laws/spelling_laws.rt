//! Laws of the text of a value. The functions do nothing: the contract is the law.

ghost use Rattle.std.specs.Prelude.{◌≡◌, ℕ, ◌≤◌, List, length, None};
ghost use Rattle.json_grammar.specs.Grammar.{IsText};
ghost use Rattle.json_grammar.specs.Tree.{Tree};
ghost use Rattle.json_grammar.specs.Prefix.{first_past};
ghost use Rattle.json_grammar.specs.laws.Value.{Value};
ghost use Rattle.json_grammar.specs.laws.Spelling.{spell};
ghost use Rattle.json_grammar.specs.laws.Spellable.{IsSpellable};
ghost use Rattle.json_grammar.specs.laws.Placed.{placed_at, value_of};

/// The text of a spellable value is a JSON text nested at most 16 deep, and its tree is the value's: that of no other
/// value, each part at the place where its text stands.
pub fn spelled_is_read()
    ensures text { (v : Value) → IsSpellable v → IsText (spell v) (placed_at 0 v) }
    ensures shallow { (v : Value) → IsSpellable v → first_past 16 (placed_at 0 v) ≡ None }
    ensures value { (v : Value) → value_of (placed_at 0 v) ≡ v }
{}

/// Two spellable values with one text are the same.
pub fn spelled_alike_is_alike()
    ensures { (v w : Value) → IsSpellable v → IsSpellable w → spell v ≡ spell w → v ≡ w }
{}

/// No JSON text is shorter than what is spelled of its value.
pub fn spelled_is_shortest()
    ensures { (bytes : List ℕ) (tree : Tree) → IsText bytes tree → length (spell (value_of tree)) ≤ length bytes }
{}
