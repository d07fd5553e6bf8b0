//! The top call.
ghost use Rattle.std.specs.Prelude.{map, string_bytes};
ghost use Rattle.plan_repair.specs.Outcome.{Outcome};

use crate::words::{Command, command_of};
use command_audit::audit_files;
use command_frame::{WORDS_LINE, say};
use command_repair::repair_files;
use plan_desk::Desk;
use quantile_index::TreeRow;
use std::alloc::Global;

/// Runs the command of these words, which are those after the program's name, and answers the status.
///
/// 0: done; of `audit`, the certificate is valid; of `repair`, a plan was found. 2: the words are not in the grammar.
/// 3: the instance is refused. 4: the plan's text is refused. 5: the certificate is refused. 7: a file could not be
/// read. 8: a file could not be written, or what was due could not be said. 9: no plan was found, and there may be one.
/// 10: there is no plan. 11: memory ran out, and nothing was written or said before.
pub fn run_repair<D: Desk>(alloc: Global, words: &[String], desk: &mut D) -> u8
    ensures { Outcome (map string_bytes words.now) (D.shows desk.old) (D.shows desk.new) result }
{
    match command_of(words) {
        None => say(desk, 2, WORDS_LINE.as_bytes()),
        Some(
            Command::Audit {
                source,
                plan,
                certificate,
            },
        ) => audit_files(alloc, &source, plan, certificate, desk),
        Some(
            Command::Repair {
                source,
                plan,
                files,
                turns,
            },
        ) => repair_files::<TreeRow, D>(alloc, &source, plan, &files, turns, desk),
    }
}
