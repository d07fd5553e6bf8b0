//! The words of `table`.
ghost use Rattle.std.specs.Prelude.{map, string_bytes};
ghost use Rattle.planner_cli.specs.Words.{table_of};
ghost use Rattle.planner_cli.specs.Asked.{IsAsked};

use crate::words::Command;
use command_words::{source_of, span_of};

/// `table` of these words.
pub fn table_of(words: &[String]) -> Option<Command<'_>>
    ensures { IsAsked (table_of (map string_bytes words.now)) result }
{
    let [instance, plan, from, to, end @ ..] = words else {
        return None;
    };
    if plan.is_empty() {
        return None;
    }
    let source = source_of(instance.as_str(), end)?;
    let (from, to) = span_of(from.as_str(), to.as_str())?;
    Some(Command::Table {
        source,
        plan: plan.as_str(),
        from,
        to,
    })
}
