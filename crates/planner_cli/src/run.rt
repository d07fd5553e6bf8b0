//! The top call.
ghost use Rattle.std.specs.Prelude.{◌≤◌, map, string_bytes};
ghost use Rattle.instance_model.specs.Limits.{standard_limits};
ghost use Rattle.instance_shape.specs.Ranges.{AreStandard};
ghost use Rattle.planner_cli.specs.Outcome.{AskToRebound, AskToRoll, Outcome};

use crate::words::{Command, command_of};
use command_check::check_files;
use command_evaluate::evaluate_files;
use command_frame::{WORDS_LINE, say};
use command_rebound::rebound_files;
use command_rehearse::rehearse_drawn;
use command_replay::replay_files;
use command_roll::roll_files;
use command_solve::solve_files;
use command_table::table_files;
use instance_model::Limits;
use plan_desk::Desk;
use quantile_index::{Row, TreeRow};
use std::alloc::Global;

/// Runs the command of these words, which are those after the program's name, and answers the status.
///
/// 0: done; of `evaluate`, the plan is feasible; of `check`, the certificate is valid; of `solve`, a plan was found. 1:
/// the plan breaks a rule; of `replay` and `table`, one on starts; of `roll`, one on starts that are kept. 2: the words
/// are not in the grammar. 3: the instance is refused. 4: the plan's text is refused. 5: the certificate is refused. 6:
/// the script is refused. 7: a file could not be read. 8: a file could not be written, or what was due could not be
/// said. 9: no plan was found, and there may be one. 10: there is no plan. 11: memory ran out, and nothing was written
/// or said before. 12: of `rebound` and `roll`, the text to be written is too long.
pub fn run<D: Desk>(alloc: Global, words: &[String], desk: &mut D) -> u8
    ensures { Outcome standard_limits (map string_bytes words.now) (D.shows desk.old) (D.shows desk.new) result }
{
    run_with::<TreeRow, D>(alloc, words, desk)
}

/// The same over rows of another kind, in which plans that change are kept: the answers are those of `run`.
pub fn run_with<R: Row, D: Desk>(alloc: Global, words: &[String], desk: &mut D) -> u8
    ensures { Outcome standard_limits (map string_bytes words.now) (D.shows desk.old) (D.shows desk.new) result }
{
    match command_of(words) {
        None => say(desk, 2, WORDS_LINE.as_bytes()),
        Some(Command::Evaluate { source, plan }) => evaluate_files(alloc, &source, plan, desk),
        Some(
            Command::Replay {
                source,
                plan,
                script,
            },
        ) => replay_files::<R, D>(alloc, &source, plan, script, desk),
        Some(
            Command::Check {
                source,
                plan,
                certificate,
            },
        ) => check_files(alloc, &source, plan, certificate, desk),
        Some(
            Command::Solve {
                source,
                files,
                turns,
            },
        ) => solve_files::<R, D>(alloc, &source, &files, turns, desk),
        Some(
            Command::Table {
                source,
                plan,
                from,
                to,
            },
        ) => table_files(alloc, &source, plan, from, to, desk),
        Some(Command::Rebound { .. }) => rebound_standard(alloc, words, desk),
        Some(Command::Roll { .. }) => roll_standard(alloc, words, desk),
        Some(Command::Rehearse { seed, count }) => {
            rehearse_drawn::<R, D>(alloc, seed, count, desk)
        }
    }
}

/// Runs words of `rebound` within the limits of the program.
fn rebound_standard<D: Desk>(alloc: Global, words: &[String], desk: &mut D) -> u8
    requires { AskToRebound (map string_bytes words.now) }
    ensures { Outcome standard_limits (map string_bytes words.now) (D.shows desk.old) (D.shows desk.new) result }
{
    let limits = Limits::standard();
    rebound_within(alloc, &limits, words, desk)
}

/// Runs words of `roll` within the limits of the program.
fn roll_standard<D: Desk>(alloc: Global, words: &[String], desk: &mut D) -> u8
    requires { AskToRoll (map string_bytes words.now) }
    ensures { Outcome standard_limits (map string_bytes words.now) (D.shows desk.old) (D.shows desk.new) result }
{
    let limits = Limits::standard();
    roll_within(alloc, &limits, words, desk)
}

/// Runs words of `rebound` within these limits, of which none is above the standard one.
pub fn rebound_within<D: Desk>(alloc: Global, limits: &Limits, words: &[String], desk: &mut D) -> u8
    requires standard { AreStandard limits.now }
    requires bytes { limits.now.certificate_bytes ≤ standard_limits.certificate_bytes }
    requires asked { AskToRebound (map string_bytes words.now) }
    ensures { Outcome limits.now (map string_bytes words.now) (D.shows desk.old) (D.shows desk.new) result }
{
    match command_of(words) {
        Some(
            Command::Rebound {
                source,
                certificate,
                out,
            },
        ) => rebound_files(alloc, limits, &source, certificate, out, desk),
        _ => unreachable!(),
    }
}

/// Runs words of `roll` within these limits, of which none is above the standard one.
pub fn roll_within<D: Desk>(alloc: Global, limits: &Limits, words: &[String], desk: &mut D) -> u8
    requires standard { AreStandard limits.now }
    requires asked { AskToRoll (map string_bytes words.now) }
    ensures { Outcome limits.now (map string_bytes words.now) (D.shows desk.old) (D.shows desk.new) result }
{
    match command_of(words) {
        Some(Command::Roll { files, period }) => roll_files(alloc, limits, &files, period, desk),
        _ => unreachable!(),
    }
}
