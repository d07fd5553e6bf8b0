//! The line of the least number of changes.
ghost use Rattle.std.specs.Prelude.{◌≡◌, ◌++◌, OnOk};
ghost use Rattle.certificate_tree.specs.Ranges.{IsBoundInRange};
ghost use Rattle.command_answers.specs.Audit.{least_line};

use certificate_text::Bound;
use command_frame::{Text, push_numbered};
use plan_changes::least_changes;
use std::alloc::AllocError;

/// Adds the line of the least number of changes that a bound says.
pub fn push_least(text: &mut Text, bound: Bound) -> Result<(), AllocError>
    requires { IsBoundInRange bound }
    ensures { OnOk result (text.new ≡ text.old ++ least_line bound) }
{
    match bound {
        Bound::NoPlan => text.push("least none\n"),
        Bound::Least(least) => push_numbered(text, "least ", least_changes(least)),
    }
}
