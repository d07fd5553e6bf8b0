//! The words of `improve`.
ghost use Rattle.std.specs.Prelude.{◌≡◌, map, string_bytes, option_copied};
ghost use Rattle.command_words.specs.Files.{are_apart};
ghost use Rattle.plan_refine.specs.Words.{improve_names, improve_of};
ghost use Rattle.plan_refine.specs.Asked.{IsAsked};

use crate::words::Command;
use command_words::{are_apart, are_file_words, given_of, seed_of, source_of, turns_of};

/// `improve` of these words.
pub fn improve_of(words: &[String]) -> Option<Command<'_>>
    ensures { IsAsked (improve_of (map string_bytes words.now)) result }
{
    let [instance, plan, out, turns, seed, end @ ..] = words else {
        return None;
    };
    let (plan, out) = (plan.as_str(), out.as_str());
    if !are_file_words(&[plan, out]) {
        return None;
    }
    let plan = given_of(plan);
    if !are_names_apart(instance.as_str(), plan, out) {
        return None;
    }
    let source = source_of(instance.as_str(), end)?;
    let turns = turns_of(turns.as_str())?;
    let seed = seed_of(seed.as_str())?;
    Some(Command::Improve {
        source,
        plan,
        out,
        turns,
        seed,
    })
}

/// Whether no two of the names that are given are the same text.
fn are_names_apart(instance: &str, plan: Option<&str>, out: &str) -> bool
    ensures { result ≡ are_apart (improve_names instance.now (option_copied plan.entry) out.now) }
{
    match plan {
        None => are_apart(&[instance, out]),
        Some(plan) => are_apart(&[instance, plan, out]),
    }
}
