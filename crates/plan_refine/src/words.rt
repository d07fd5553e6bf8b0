//! The command line: word 1 names the command, and the words behind it are that command's own.
ghost use Rattle.std.specs.Prelude.{map, string_bytes};
ghost use Rattle.plan_refine.specs.Words.{command_of, command_named, check_of, rebound_of};
ghost use Rattle.plan_refine.specs.Asked.{IsAsked};

mod bound;
mod ending;
mod improve;

use bound::bound_of;
use branch_search::Part;
use command_frame::Source;
use command_words::{are_apart, are_file_words, given_of, source_of};
use improve::improve_of;

/// What the words ask for, with the names of its files.
#[derive(Clone, Copy)]
pub enum Command<'a> {
    /// A check has its plan as word 3, if it has one, and its certificate as word 4.
    Check {
        source: Source<'a>,
        plan: Option<&'a str>,
        certificate: &'a str,
    },
    /// A certificate that is rebound is word 3, and what it becomes is written to word 4.
    Rebound {
        source: Source<'a>,
        certificate: &'a str,
        out: &'a str,
    },
    /// A bound has a plan, word 3, and a certificate that it goes on with, word 4, each if it has one; it is written to
    /// word 5, and has turns, word 6, for the leaves of a part of that certificate.
    Bound {
        source: Source<'a>,
        plan: Option<&'a str>,
        certificate: Option<&'a str>,
        out: &'a str,
        turns: u32,
        part: Part,
    },
    /// An improvement has a plan, word 3, if it has one; it is written to word 4, and has turns, word 5, and a seed,
    /// word 6.
    Improve {
        source: Source<'a>,
        plan: Option<&'a str>,
        out: &'a str,
        turns: u32,
        seed: u64,
    },
}

/// The command of the words, if they are in the grammar.
pub fn command_of(words: &[String]) -> Option<Command<'_>>
    ensures { IsAsked (command_of (map string_bytes words.now)) result }
{
    match words {
        [name, words @ ..] => command_named(name.as_str(), words),
        [] => None,
    }
}

/// The command of this name, of the words behind it.
fn command_named<'a>(name: &str, words: &'a [String]) -> Option<Command<'a>>
    ensures { IsAsked (command_named name.now (map string_bytes words.now)) result }
{
    match name {
        _ if name == "check" => check_of(words),
        _ if name == "rebound" => rebound_of(words),
        _ if name == "bound" => bound_of(words),
        _ if name == "improve" => improve_of(words),
        _ => None,
    }
}

/// `check` of these words.
fn check_of(words: &[String]) -> Option<Command<'_>>
    ensures { IsAsked (check_of (map string_bytes words.now)) result }
{
    let [instance, plan, certificate, end @ ..] = words else {
        return None;
    };
    if plan.is_empty() || certificate.is_empty() {
        return None;
    }
    let source = source_of(instance.as_str(), end)?;
    Some(Command::Check {
        source,
        plan: given_of(plan.as_str()),
        certificate: certificate.as_str(),
    })
}

/// `rebound` of these words.
fn rebound_of(words: &[String]) -> Option<Command<'_>>
    ensures { IsAsked (rebound_of (map string_bytes words.now)) result }
{
    let [instance, certificate, out, end @ ..] = words else {
        return None;
    };
    if !are_file_words(&[certificate.as_str(), out.as_str()]) {
        return None;
    }
    if !are_apart(&[instance.as_str(), certificate.as_str(), out.as_str()]) {
        return None;
    }
    let source = source_of(instance.as_str(), end)?;
    Some(Command::Rebound {
        source,
        certificate: certificate.as_str(),
        out: out.as_str(),
    })
}
