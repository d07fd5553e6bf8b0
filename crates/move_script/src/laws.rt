//! Laws of the format.
ghost use Rattle.std.specs.Prelude.{◌≡◌, ℕ, List};
ghost use Rattle.plan_moves.specs.declared.script_line.ScriptLine.{ScriptLine};
ghost use Rattle.move_script.specs.Spelling.{IsScript};
ghost use Rattle.move_script.specs.FirstFault.{HasScriptFault};
ghost use Rattle.move_script.specs.declared.fault.ScriptFault.{ScriptFault};
ghost use Rattle.move_script.specs.Laws.{TextsAreTold};

/// A text spells at most one script, or has at most one first fault, and never both.
pub fn texts_read_one_way()
    ensures one_script { (names : List (List ℕ)) (text : List ℕ) (script other : List ScriptLine)
        → IsScript names text script → IsScript names text other → script ≡ other }
    ensures one_fault { (names : List (List ℕ)) (text : List ℕ) (fault other : ScriptFault)
        → HasScriptFault names text fault → HasScriptFault names text other → fault ≡ other }
    ensures not_both { (names : List (List ℕ)) (text : List ℕ) (script : List ScriptLine) (fault : ScriptFault)
        → IsScript names text script → HasScriptFault names text fault → ⊥ }
{}

/// A text spells a script, or has a first fault.
pub fn texts_are_told()
    ensures told { TextsAreTold }
{}
