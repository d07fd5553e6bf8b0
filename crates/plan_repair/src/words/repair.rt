//! The words of `repair`.
ghost use Rattle.std.specs.Prelude.{map, string_bytes};
ghost use Rattle.plan_repair.specs.Words.{repair_of};
ghost use Rattle.plan_repair.specs.Asked.{IsAsked};

use crate::words::Command;
use command_repair::RepairFiles;
use command_words::{are_apart, are_file_words, source_of, turns_of};

/// `repair` of these words.
pub fn repair_of(words: &[String]) -> Option<Command<'_>>
    ensures { IsAsked (repair_of (map string_bytes words.now)) result }
{
    let [instance, plan, certificate, out, turns, end @ ..] = words else {
        return None;
    };
    let (plan, certificate, out) = (plan.as_str(), certificate.as_str(), out.as_str());
    if !are_file_words(&[plan, certificate, out]) {
        return None;
    }
    if !are_apart(&[instance.as_str(), plan, certificate, out]) {
        return None;
    }
    let source = source_of(instance.as_str(), end)?;
    let turns = turns_of(turns.as_str())?;
    let files = RepairFiles { certificate, out };
    Some(Command::Repair {
        source,
        plan,
        files,
        turns,
    })
}
