//! The command line: word 1 names the command, and the words behind it are that command's own.
ghost use Rattle.std.specs.Prelude.{map, string_bytes};
ghost use Rattle.planner_cli.specs.Words.{command_of, command_named, evaluate_of, replay_of, check_of, rebound_of};
ghost use Rattle.planner_cli.specs.Asked.{IsAsked};

mod rehearse;
mod roll;
mod solve;
mod table;

use command_frame::Source;
use command_roll::RollFiles;
use command_solve::SolveFiles;
use command_words::{are_apart, are_file_words, given_of, source_of};
use rehearse::rehearse_of;
use roll::roll_of;
use solve::solve_of;
use table::table_of;

/// What the words ask for, with the names of its files: the plan is word 3, the script or the certificate word 4.
#[derive(Clone, Copy)]
pub enum Command<'a> {
    Evaluate {
        source: Source<'a>,
        plan: &'a str,
    },
    Replay {
        source: Source<'a>,
        plan: &'a str,
        script: &'a str,
    },
    /// A check may be without a plan.
    Check {
        source: Source<'a>,
        plan: Option<&'a str>,
        certificate: &'a str,
    },
    /// A solution also has a trail, word 5, and turns, word 6.
    Solve {
        source: Source<'a>,
        files: SolveFiles<'a>,
        turns: u32,
    },
    /// A table has its first and its last period, words 4 and 5.
    Table {
        source: Source<'a>,
        plan: &'a str,
        from: u32,
        to: u32,
    },
    /// A certificate that is rebound is word 3, and what it becomes is written to word 4.
    Rebound {
        source: Source<'a>,
        certificate: &'a str,
        out: &'a str,
    },
    /// The rest of a year begins at a period, word 4.
    Roll {
        files: RollFiles<'a>,
        period: u32,
    },
    /// A rehearsal has a number that its instance is drawn from, word 2, and its number of interventions, word 3.
    Rehearse {
        seed: u64,
        count: u32,
    },
}

/// The command of the words, if they are in the grammar.
pub fn command_of(words: &[String]) -> Option<Command<'_>>
    ensures { IsAsked (command_of (map string_bytes words.now)) result }
{
    match words {
        [name, words @ ..] => command_named(name.as_str(), words),
        [] => None,
    }
}

/// The command of this name, of the words behind it.
fn command_named<'a>(name: &str, words: &'a [String]) -> Option<Command<'a>>
    ensures { IsAsked (command_named name.now (map string_bytes words.now)) result }
{
    match name {
        _ if name == "evaluate" => evaluate_of(words),
        _ if name == "replay" => replay_of(words),
        _ if name == "check" => check_of(words),
        _ if name == "solve" => solve_of(words),
        _ if name == "table" => table_of(words),
        _ if name == "rebound" => rebound_of(words),
        _ if name == "roll" => roll_of(words),
        _ if name == "rehearse" => rehearse_of(words),
        _ => None,
    }
}

/// `evaluate` of these words.
fn evaluate_of(words: &[String]) -> Option<Command<'_>>
    ensures { IsAsked (evaluate_of (map string_bytes words.now)) result }
{
    let [instance, plan, end @ ..] = words else {
        return None;
    };
    if plan.is_empty() {
        return None;
    }
    let source = source_of(instance.as_str(), end)?;
    Some(Command::Evaluate {
        source,
        plan: plan.as_str(),
    })
}

/// `replay` of these words.
fn replay_of(words: &[String]) -> Option<Command<'_>>
    ensures { IsAsked (replay_of (map string_bytes words.now)) result }
{
    let [instance, plan, script, end @ ..] = words else {
        return None;
    };
    if plan.is_empty() || script.is_empty() {
        return None;
    }
    let source = source_of(instance.as_str(), end)?;
    Some(Command::Replay {
        source,
        plan: plan.as_str(),
        script: script.as_str(),
    })
}

/// `check` of these words.
fn check_of(words: &[String]) -> Option<Command<'_>>
    ensures { IsAsked (check_of (map string_bytes words.now)) result }
{
    let [instance, plan, certificate, end @ ..] = words else {
        return None;
    };
    if plan.is_empty() || certificate.is_empty() {
        return None;
    }
    let source = source_of(instance.as_str(), end)?;
    Some(Command::Check {
        source,
        plan: given_of(plan.as_str()),
        certificate: certificate.as_str(),
    })
}

/// `rebound` of these words.
fn rebound_of(words: &[String]) -> Option<Command<'_>>
    ensures { IsAsked (rebound_of (map string_bytes words.now)) result }
{
    let [instance, certificate, out, end @ ..] = words else {
        return None;
    };
    if !are_file_words(&[certificate.as_str(), out.as_str()]) {
        return None;
    }
    if !are_apart(&[instance.as_str(), certificate.as_str(), out.as_str()]) {
        return None;
    }
    let source = source_of(instance.as_str(), end)?;
    Some(Command::Rebound {
        source,
        certificate: certificate.as_str(),
        out: out.as_str(),
    })
}
