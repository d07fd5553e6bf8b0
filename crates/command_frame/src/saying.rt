//! What is due is said.
ghost use Rattle.plan_desk.specs.Contents.{KeepsFiles};
ghost use Rattle.plan_desk.specs.Written.{SaysText};
ghost use Rattle.command_frame.specs.Lines.{numbered_line};
ghost use Rattle.command_frame.specs.Refusals.{SaysOrFails, SaysRefused, SaysReport};

use crate::refusal::{MEMORY_LINE, READ_WORDS, Refusal};
use crate::report::Report;
use fixed_num::Line;
use plan_desk::{Desk, Failed, say_all, say_pieces};
use std::alloc::Global;

/// Says a text whole, and answers the status that is due with it; 8 where that failed.
pub fn say<D: Desk>(desk: &mut D, status: u8, text: &[u8]) -> u8
    ensures ends { SaysOrFails status text.now (D.shows desk.old) (D.shows desk.new) result }
    ensures keeps { KeepsFiles (D.shows desk.old) (D.shows desk.new) }
{
    match say_all(desk, text) {
        Ok(()) => status,
        Err(_) => 8,
    }
}

/// Says a report, or why there is none, and answers the status that is due with it; 8 where that failed.
pub fn say_report<D: Desk>(alloc: Global, desk: &mut D, report: Result<Report, Refusal>) -> u8
    ensures ends { SaysReport report (D.shows desk.old) (D.shows desk.new) result }
    ensures keeps { KeepsFiles (D.shows desk.old) (D.shows desk.new) }
{
    match report {
        Ok(report) => say(desk, report.status, report.text.as_slice()),
        Err(refusal) => refuse(alloc, desk, &refusal),
    }
}

/// Says the line of a refusal, or that memory ran out for it. That a file could not be read is said without memory.
pub fn refuse<D: Desk>(alloc: Global, desk: &mut D, refusal: &Refusal) -> u8
    ensures ends { SaysRefused refusal.now (D.shows desk.old) (D.shows desk.new) result }
    ensures keeps { KeepsFiles (D.shows desk.old) (D.shows desk.new) }
{
    match refusal {
        Refusal::Unread { word } => say_numbered(desk, 7, READ_WORDS, *word),
        _ => match refusal.line(alloc) {
            Ok(line) => say(desk, refusal.status(), line.as_slice()),
            Err(_) => say(desk, 11, MEMORY_LINE.as_bytes()),
        },
    }
}

/// Says a line that ends with a number, and answers the status that is due with it; 8 where that failed. Takes no
/// memory.
pub fn say_numbered<D: Desk>(desk: &mut D, status: u8, words: &str, n: u64) -> u8
    ensures ends { SaysOrFails status (numbered_line words.now n) (D.shows desk.old) (D.shows desk.new) result }
    ensures keeps { KeepsFiles (D.shows desk.old) (D.shows desk.new) }
{
    match say_line(desk, words, n) {
        Ok(()) => status,
        Err(_) => 8,
    }
}

/// Says a line that ends with a number. Takes no memory.
pub fn say_line<D: Desk>(desk: &mut D, words: &str, n: u64) -> Result<(), Failed>
    ensures { SaysText (numbered_line words.now n) (D.shows desk.old) (D.shows desk.new) result }
{
    let digits = Line::of_natural(n);
    say_pieces(desk, &[words.as_bytes(), digits.bytes(), b"\n"])
}
