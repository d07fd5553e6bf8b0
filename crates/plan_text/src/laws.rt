//! Laws of the format.
ghost use Rattle.std.specs.Prelude.{◌≡◌, ℕ, List, Option};
ghost use Rattle.plan_text.specs.Spelling.{IsPlan};
ghost use Rattle.plan_text.specs.FirstFault.{HasPlanFault};
ghost use Rattle.plan_text.specs.declared.fault.PlanFault.{PlanFault};
ghost use Rattle.plan_text.specs.Laws.{TextsAreTold};

/// A text spells at most one plan, or has at most one first fault, and never both.
pub fn texts_read_one_way()
    ensures one_plan { (names : List (List ℕ)) (text : List ℕ) (plan other : List (Option ℕ)) → IsPlan names text plan
        → IsPlan names text other → plan ≡ other }
    ensures one_fault { (names : List (List ℕ)) (text : List ℕ) (fault other : PlanFault)
        → HasPlanFault names text fault → HasPlanFault names text other → fault ≡ other }
    ensures not_both { (names : List (List ℕ)) (text : List ℕ) (plan : List (Option ℕ)) (fault : PlanFault)
        → IsPlan names text plan → HasPlanFault names text fault → ⊥ }
{}

/// A text spells a plan, or has a first fault.
pub fn texts_are_told()
    ensures told { TextsAreTold }
{}
