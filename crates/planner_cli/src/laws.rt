//! The laws of the words and of completeness. The functions do nothing: their contracts are the laws.
ghost use Rattle.std.specs.Prelude.{ℕ, List};
ghost use Rattle.plan_desk.specs.Desk.{Shown};
ghost use Rattle.instance_model.specs.declared.limits.Limits.{Limits};
ghost use Rattle.command_frame.specs.Ending.{NoFault};
ghost use Rattle.planner_cli.specs.Words.{GoesByName};
ghost use Rattle.planner_cli.specs.Outcome.{Outcome};
ghost use Rattle.planner_cli.specs.Complete.{IsComplete};

/// Each command is asked for by its own name and its own words.
pub fn commands_go_by_name()
    ensures { GoesByName }
{}

/// Where the files of the command are read and no fault rose, what `run`, `roll_within` and `rebound_within` promise
/// leaves the statuses of that command alone, and 11: 0, 1, 5 for a leaf, 6 for a line of the script that fails, 9, 10
/// or 12.
pub fn runs_are_complete()
    ensures { (limits : Limits) (words : List (List ℕ)) (old new : Shown) (status : ℕ)
        → Outcome limits words old new status → NoFault old new → IsComplete limits words old new status }
{}
