//! The words of `bound`.
ghost use Rattle.std.specs.Prelude.{◌≡◌, map, string_bytes, option_copied};
ghost use Rattle.command_words.specs.Files.{are_apart};
ghost use Rattle.plan_refine.specs.Words.{bound_names, bound_of};
ghost use Rattle.plan_refine.specs.Asked.{IsAsked};

use crate::words::Command;
use crate::words::ending::split_end;
use command_words::{are_apart, are_file_words, given_of, source_of, turns_of};

/// `bound` of these words.
pub fn bound_of(words: &[String]) -> Option<Command<'_>>
    ensures { IsAsked (bound_of (map string_bytes words.now)) result }
{
    let [instance, plan, certificate, out, turns, end @ ..] = words else {
        return None;
    };
    let (plan, certificate, out) = (plan.as_str(), certificate.as_str(), out.as_str());
    if !are_file_words(&[plan, certificate, out]) {
        return None;
    }
    let (plan, certificate) = (given_of(plan), given_of(certificate));
    if !are_names_apart(instance.as_str(), plan, certificate, out) {
        return None;
    }
    let (end, part) = split_end(end)?;
    let source = source_of(instance.as_str(), end)?;
    let turns = turns_of(turns.as_str())?;
    Some(Command::Bound {
        source,
        plan,
        certificate,
        out,
        turns,
        part,
    })
}

/// Whether no two of the names that are given are the same text.
fn are_names_apart(instance: &str, plan: Option<&str>, certificate: Option<&str>, out: &str) -> bool
    ensures { result ≡ are_apart (bound_names instance.now (option_copied plan.entry)
        (option_copied certificate.entry) out.now) }
{
    match (plan, certificate) {
        (None, None) => are_apart(&[instance, out]),
        (Some(plan), None) => are_apart(&[instance, plan, out]),
        (None, Some(certificate)) => are_apart(&[instance, certificate, out]),
        (Some(plan), Some(certificate)) => are_apart(&[instance, plan, certificate, out]),
    }
}
