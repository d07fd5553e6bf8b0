//! The command line: word 1 names the command, and the words behind it are that command's own.
ghost use Rattle.std.specs.Prelude.{map, string_bytes};
ghost use Rattle.plan_repair.specs.Words.{command_of, command_named, audit_of};
ghost use Rattle.plan_repair.specs.Asked.{IsAsked};

mod repair;

use command_frame::Source;
use command_repair::RepairFiles;
use command_words::source_of;
use repair::repair_of;

/// What the words ask for, with the names of its files: the plan is word 3, and the certificate word 4.
#[derive(Clone, Copy)]
pub enum Command<'a> {
    Audit {
        source: Source<'a>,
        plan: &'a str,
        certificate: &'a str,
    },
    /// A repair also has a plan that is written, word 5, and turns, word 6.
    Repair {
        source: Source<'a>,
        plan: &'a str,
        files: RepairFiles<'a>,
        turns: u32,
    },
}

/// The command of the words, if they are in the grammar.
pub fn command_of(words: &[String]) -> Option<Command<'_>>
    ensures { IsAsked (command_of (map string_bytes words.now)) result }
{
    match words {
        [name, words @ ..] => command_named(name.as_str(), words),
        [] => None,
    }
}

/// The command of this name, of the words behind it.
fn command_named<'a>(name: &str, words: &'a [String]) -> Option<Command<'a>>
    ensures { IsAsked (command_named name.now (map string_bytes words.now)) result }
{
    match name {
        _ if name == "audit" => audit_of(words),
        _ if name == "repair" => repair_of(words),
        _ => None,
    }
}

/// `audit` of these words.
fn audit_of(words: &[String]) -> Option<Command<'_>>
    ensures { IsAsked (audit_of (map string_bytes words.now)) result }
{
    let [instance, plan, certificate, end @ ..] = words else {
        return None;
    };
    if plan.is_empty() || certificate.is_empty() {
        return None;
    }
    let source = source_of(instance.as_str(), end)?;
    Some(Command::Audit {
        source,
        plan: plan.as_str(),
        certificate: certificate.as_str(),
    })
}
