//! The words of `solve`.
ghost use Rattle.std.specs.Prelude.{map, string_bytes};
ghost use Rattle.planner_cli.specs.Words.{solve_of};
ghost use Rattle.planner_cli.specs.Asked.{IsAsked};

use crate::words::Command;
use command_solve::SolveFiles;
use command_words::{are_apart, are_file_words, source_of, turns_of};

/// `solve` of these words.
pub fn solve_of(words: &[String]) -> Option<Command<'_>>
    ensures { IsAsked (solve_of (map string_bytes words.now)) result }
{
    let [instance, plan, certificate, trail, turns, end @ ..] = words else {
        return None;
    };
    let (plan, certificate, trail) = (plan.as_str(), certificate.as_str(), trail.as_str());
    if !are_file_words(&[plan, certificate, trail]) {
        return None;
    }
    if !are_apart(&[instance.as_str(), plan, certificate, trail]) {
        return None;
    }
    let source = source_of(instance.as_str(), end)?;
    let turns = turns_of(turns.as_str())?;
    let files = SolveFiles {
        plan,
        certificate,
        trail,
    };
    Some(Command::Solve {
        source,
        files,
        turns,
    })
}
