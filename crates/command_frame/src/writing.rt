//! The files that commands write: each is opened, written whole and ended, and then what is due is said.
ghost use Rattle.std.specs.Prelude.{◌≡◌, ◌<◌, ◌^◌, length, All};
ghost use Rattle.plan_moves.specs.Scripts.{NamesKnown, line_of};
ghost use Rattle.plan_text.specs.Spelling.{plan_text};
ghost use Rattle.move_script.specs.Spelling.{HasSmallStart, moves_text};
ghost use Rattle.plan_desk.specs.Contents.{KeepsFiles};
ghost use Rattle.command_frame.specs.Writing.{PutsFile, SaysWritten};

use crate::certificate::FileCertificate;
use crate::report::Report;
use crate::saying::{say, say_numbered};
use instance_model::Instance;
use move_script::write_moves;
use plan_desk::{Desk, Failed};
use plan_moves::Moves;
use plan_text::write_plan;

/// The line of a file that could not be written, before the number of its word.
pub const WRITE_WORDS: &str = "refused write ";

/// Writes a certificate as the file of this name. Takes no memory.
pub fn put_certificate<C: FileCertificate, D: Desk>(
    inst: &Instance,
    certificate: &C,
    name: &str,
    desk: &mut D,
) -> Result<(), Failed>
    requires in_range { C.kind.range inst.now certificate.now }
    ensures { PutsFile (record { name = name.now; bytes = C.kind.text inst.now certificate.now })
        (D.shows desk.old) (D.shows desk.new) result }
{
    desk.put_out(name)?;
    certificate.write(inst, desk)?;
    desk.finish_out()
}

/// Writes changes as the script file of this name. Takes no memory.
pub fn put_moves<D: Desk>(
    inst: &Instance,
    moves: &Moves,
    name: &str,
    desk: &mut D,
) -> Result<(), Failed>
    requires known { All (λ change. NamesKnown inst.now (line_of change)) moves.now }
    requires small { All HasSmallStart moves.now }
    ensures { PutsFile (record { name = name.now; bytes = moves_text inst.now.names moves.now })
        (D.shows desk.old) (D.shows desk.new) result }
{
    desk.put_out(name)?;
    write_moves(inst, moves, desk)?;
    desk.finish_out()
}

/// Writes one start for each intervention as the plan file of this name. Takes no memory.
pub fn put_plan<D: Desk>(
    inst: &Instance,
    starts: &[u32],
    name: &str,
    desk: &mut D,
) -> Result<(), Failed>
    requires each { length starts.now ≡ length inst.now.names }
    requires small { All (λ start. start < 10 ^ 9) starts.now }
    ensures { PutsFile (record { name = name.now; bytes = plan_text inst.now.names starts.now })
        (D.shows desk.old) (D.shows desk.new) result }
{
    desk.put_out(name)?;
    write_plan(inst, starts, desk)?;
    desk.finish_out()
}

/// Says the report behind files that were written, or which one could not be written whole: the error is its word.
///
/// Answers the status that is due with it; 8 where a file was not written, or saying failed. Takes no memory.
pub fn say_written<D: Desk>(desk: &mut D, wrote: Result<(), u64>, report: &Report) -> u8
    ensures ends { SaysWritten report.now (D.shows desk.old) (D.shows desk.new) wrote result }
    ensures keeps { KeepsFiles (D.shows desk.old) (D.shows desk.new) }
{
    match wrote {
        Ok(()) => say(desk, report.status, report.text.as_slice()),
        Err(word) => say_numbered(desk, 8, WRITE_WORDS, word),
    }
}
