//! The command `rehearse`: the drawn instance is rehearsed, and the summary is said.
ghost use Rattle.std.specs.Prelude.{◌≤◌, IfOk};
ghost use Rattle.command_frame.specs.Ending.{reply};
ghost use Rattle.instance_gen.specs.Drawn.{drawn_tables};
ghost use Rattle.command_rehearse.specs.Rehearsing.{Rehearses, RunsRehearse};

use crate::drawn::{open_drawn, read_drawn};
use crate::rehearsal::rehearse;
use crate::summary::summary_text;
use command_frame::{MEMORY_LINE, Text, say};
use plan_desk::Desk;
use quantile_index::Row;
use std::alloc::{AllocError, Global};

/// Rehearses the instance of `count` interventions, from 1 to 200, that is drawn from `seed`, and says the summary.
///
/// Plans that change are kept over rows of this kind. No file is read or written, and no memory is taken once anything
/// is said. The answer is 0; 8 where saying fails; 11 where memory ran out.
pub fn rehearse_drawn<R: Row, D: Desk>(alloc: Global, seed: u64, count: u32, desk: &mut D) -> u8
    requires from { 1 ≤ count }
    requires to { count ≤ 200 }
    ensures { RunsRehearse seed count (D.shows desk.old) (D.shows desk.new) result }
{
    match summary_of::<R>(alloc, seed, count) {
        Ok(text) => say(desk, 0, text.as_slice()),
        Err(_) => say(desk, 11, MEMORY_LINE.as_bytes()),
    }
}

/// The text of the summary.
fn summary_of<R: Row>(alloc: Global, seed: u64, count: u32) -> Result<Text, AllocError>
    requires from { 1 ≤ count }
    requires to { count ≤ 200 }
    ensures { IfOk result (λ text. Rehearses (drawn_tables seed count) (reply 0 text)) }
{
    let inst = read_drawn(alloc, seed, count)?;
    let opening = open_drawn(alloc, &inst, seed, count)?;
    let summary = rehearse::<R>(alloc, &inst, opening.as_slice())?;
    let text = summary_text(alloc, summary)?;
    Ok(text)
}
