//! The words of `rehearse`.
ghost use Rattle.std.specs.Prelude.{map, string_bytes};
ghost use Rattle.planner_cli.specs.Words.{rehearse_of};
ghost use Rattle.planner_cli.specs.Asked.{IsAsked};

use crate::words::Command;
use command_words::{count_of, seed_of};

/// `rehearse` of these words.
pub fn rehearse_of(words: &[String]) -> Option<Command<'_>>
    ensures { IsAsked (rehearse_of (map string_bytes words.now)) result }
{
    let [seed, count] = words else {
        return None;
    };
    let seed = seed_of(seed.as_str())?;
    let count = count_of(count.as_str())?;
    Some(Command::Rehearse { seed, count })
}
