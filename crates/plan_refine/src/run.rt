//! The top call.
ghost use Rattle.std.specs.Prelude.{◌<◌, ◌≤◌, map, string_bytes, option_copied};
ghost use Rattle.instance_model.specs.Limits.{standard_limits};
ghost use Rattle.command_frame.specs.Sources.{source_view};
ghost use Rattle.refined_files.specs.RefinedKind.{refined_kind};
ghost use Rattle.command_rebound.specs.Rebinding.{RunsReboundBy};
ghost use Rattle.command_bound.specs.Bounding.{RunsBound};
ghost use Rattle.plan_refine.specs.Outcome.{Outcome};

use crate::words::{Command, command_of};
use branch_search::Part;
use command_bound::bound_files;
use command_check::check_files_by;
use command_frame::{Source, WORDS_LINE, say};
use command_improve::improve_files;
use command_rebound::rebound_files_by;
use instance_model::Limits;
use plan_desk::Desk;
use quantile_index::TreeRow;
use refined_files::VersionedCertificate;
use std::alloc::Global;

/// Runs the command of these words, which are those after the program's name, and answers the status.
///
/// 0: done; of `check`, the certificate is valid; of `bound`, the bound is a number; of `improve`, a plan was written.
/// 1: of `check`, the plan breaks a rule. 2: the words are not in the grammar. 3: the instance is refused. 4: the
/// plan's text is refused. 5: the certificate is refused. 7: a file could not be read. 8: a file could not be written,
/// or what was due could not be said. 9: of `improve`, no plan was found, and there may be one. 10: there is no plan;
/// of `bound`, the certificate that says so was written. 11: memory ran out, and nothing was written or said before.
/// 12: of `rebound` and `bound`, the text to be written is too long.
pub fn run_refine<D: Desk>(alloc: Global, words: &[String], desk: &mut D) -> u8
    ensures { Outcome (map string_bytes words.now) (D.shows desk.old) (D.shows desk.new) result }
{
    match command_of(words) {
        None => say(desk, 2, WORDS_LINE.as_bytes()),
        Some(
            Command::Check {
                source,
                plan,
                certificate,
            },
        ) => check_files_by::<VersionedCertificate, D>(alloc, &source, plan, certificate, desk),
        Some(
            Command::Rebound {
                source,
                certificate,
                out,
            },
        ) => rebound_standard(alloc, &source, certificate, out, desk),
        Some(
            Command::Bound {
                source,
                plan,
                certificate,
                out,
                turns,
                part,
            },
        ) => bound_standard(alloc, &source, plan, certificate, out, turns, part, desk),
        Some(
            Command::Improve {
                source,
                plan,
                out,
                turns,
                seed,
            },
        ) => improve_files::<TreeRow, D>(alloc, &source, plan, out, turns, seed, desk),
    }
}

/// Makes a certificate fit the limits of an instance, within the limits of the program.
fn rebound_standard<D: Desk>(
    alloc: Global,
    source: &Source<'_>,
    certificate: &str,
    out: &str,
    desk: &mut D,
) -> u8
    requires small { source.now.slack ≤ 1_000_000_000 }
    ensures { RunsReboundBy refined_kind standard_limits (source_view source.now) certificate.now out.now
        (D.shows desk.old) (D.shows desk.new) result }
{
    let limits = Limits::standard();
    rebound_files_by::<VersionedCertificate, D>(alloc, &limits, source, certificate, out, desk)
}

/// Makes a certificate, or goes on with one, within the limits of the program.
fn bound_standard<D: Desk>(
    alloc: Global,
    source: &Source<'_>,
    plan: Option<&str>,
    cert: Option<&str>,
    out: &str,
    turns: u32,
    part: Part,
    desk: &mut D,
) -> u8
    requires small { source.now.slack ≤ 1_000_000_000 }
    requires part { part.number < part.count }
    ensures { RunsBound standard_limits (source_view source.now) (option_copied plan.entry)
        (option_copied cert.entry) out.now turns part (D.shows desk.old) (D.shows desk.new) result }
{
    let limits = Limits::standard();
    bound_files(alloc, &limits, source, plan, cert, out, turns, part, desk)
}
