//! Laws of the definitions on texts and streams. The functions do nothing: the contract is the law.

ghost use Rattle.std.specs.Prelude.{◌≡◌, ℕ, ◌<◌, List, ◌++◌, length, Bool, None};
ghost use Rattle.std.specs.Str.{IsUtf8};
ghost use Rattle.json_grammar.specs.Tree.{Tree, Event, events_of};
ghost use Rattle.json_grammar.specs.Grammar.{IsText};
ghost use Rattle.json_grammar.specs.Prefix.{IsSyntaxFault, IsShallow, IsDepthFault, first_past};
ghost use Rattle.json_grammar.specs.Stream.{IsDue, AscendFrom};
ghost use Rattle.json_grammar.specs.laws.Answers.{TextAnswer, IsAnswerTo, HasAnswer};

/// Each byte text is the text of a tree that is nested at most 16 deep, or has a fault of syntax or of depth, and one
/// of these alone, at one place.
pub fn text_has_one_answer()
    ensures some { (bytes : List ℕ) → HasAnswer bytes }
    ensures one { (bytes : List ℕ) (one other : TextAnswer) → IsAnswerTo bytes one → IsAnswerTo bytes other →
        one ≡ other }
{}

/// A JSON text has one tree.
pub fn text_has_one_tree()
    ensures { (bytes : List ℕ) (one other : Tree) → IsText bytes one → IsText bytes other → one ≡ other }
{}

/// A JSON text is UTF-8.
pub fn text_is_utf8()
    ensures { (bytes : List ℕ) (tree : Tree) → IsText bytes tree → IsUtf8 bytes }
{}

/// The events of a JSON text begin at ascending offsets.
pub fn events_ascend()
    ensures { (bytes : List ℕ) (tree : Tree) → IsText bytes tree → AscendFrom 0 (events_of tree) }
{}

/// A stream has due events, and one list of them.
pub fn due_events_are_one_list()
    ensures some { (stream : List ℕ) (finished : Bool) → (due : List Event) × IsDue stream finished due }
    ensures one { (stream : List ℕ) (finished : Bool) (one other : List Event) →
        IsDue stream finished one → IsDue stream finished other → one ≡ other }
{}

/// A fault before the end of a stream stays the fault of every longer stream.
pub fn fault_stays()
    ensures syntax { (stream more : List ℕ) (at : ℕ) → at < length stream →
        IsSyntaxFault stream at → IsSyntaxFault (stream ++ more) at }
    ensures first { (stream more : List ℕ) (at : ℕ) → at < length stream →
        IsShallow stream at → IsShallow (stream ++ more) at }
    ensures too_deep { (stream more : List ℕ) (at : ℕ) → IsDepthFault stream at → IsDepthFault (stream ++ more) at }
{}

/// A stream with a fault is no JSON text nested at most 16 deep.
pub fn fault_excludes_text()
    ensures syntax { (stream : List ℕ) (at : ℕ) (tree : Tree) → IsSyntaxFault stream at → IsText stream tree → ⊥ }
    ensures too_deep { (stream : List ℕ) (at : ℕ) (tree : Tree) → IsDepthFault stream at →
        IsText stream tree → first_past 16 tree ≡ None → ⊥ }
{}
