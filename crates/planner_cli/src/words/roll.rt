//! The words of `roll`.
ghost use Rattle.std.specs.Prelude.{map, string_bytes};
ghost use Rattle.planner_cli.specs.Words.{roll_of};
ghost use Rattle.planner_cli.specs.Asked.{IsAsked};

use crate::words::Command;
use command_roll::RollFiles;
use command_words::{are_apart, are_file_words, period_of};

/// `roll` of these words.
pub fn roll_of(words: &[String]) -> Option<Command<'_>>
    ensures { IsAsked (roll_of (map string_bytes words.now)) result }
{
    let [instance, plan, period, out] = words else {
        return None;
    };
    let (instance, plan, out) = (instance.as_str(), plan.as_str(), out.as_str());
    if !are_file_words(&[instance, plan, out]) {
        return None;
    }
    if !are_apart(&[instance, plan, out]) {
        return None;
    }
    let period = period_of(period.as_str())?;
    let files = RollFiles {
        instance,
        plan,
        out,
    };
    Some(Command::Roll { files, period })
}
