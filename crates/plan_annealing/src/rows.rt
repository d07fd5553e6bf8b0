//! The risks of runs by period, laid out by run, as far as there is room: each has its slot, which it may share with
//! others, and is read from the instance where it isn't in it.
//!
//! Where all have room, which takes 8 bytes for each risk and each slot, each is read but once.

ghost use Rattle.std.specs.Prelude.{◌≡◌, ◌<◌, ◌≤◌, length, IsTrue};
ghost use Rattle.instance_model.specs.Tables.{is_allowed, in_run};

use crate::change::Change;
use crate::pieces::Piece;
use crate::run::{Run, low};
use crate::scan::Deltas;
use crate::units::Units;
use duration_calendar::run;
use fixed_num::Steps;
use instance_model::{Instance, RiskNumbers};
use std::alloc::{AllocError, Global};
use std::marker::Brand;
use std::sync::ledger::{Blank, Ledger};

/// How many slots stand behind the shared ones: one for each run of a change, for where two have the same slot.
const SPARES: usize = 4;

/// The slot of no run.
const NO_SLOT: usize = usize::MAX;

/// The most pieces that have room.
pub(crate) const MOST_PIECES: usize = 262_144;

/// Risks that are kept, and those of which instance they are.
#[derive(Drop)]
pub(crate) struct Rows<'a> {
    inst: &'a Instance,
    units: Units,
    /// How many risks a slot has.
    width: usize,
    slots: usize,
    /// By slot, one more than the number of the piece whose risks stand there, or 0.
    tags: Vec<usize>,
    risks: Vec<i64>,
    pieces: Vec<Piece>,
}

/// Where the risks of the runs of a change stand in a period.
#[derive(Clone, Copy)]
pub(crate) struct Slots {
    come: usize,
    gone: usize,
    second_come: usize,
    second_gone: usize,
}

/// The slot of a number, of so many.
#[inline]
fn slot_of(number: usize, slots: usize) -> usize {
    if number < slots {
        number
    } else if slots == 0 {
        0
    } else {
        number % slots
    }
}

/// Writes risks of 8 bytes into a row.
fn copy_narrow(row: &mut [i64], risks: &[i64], units: Units) {
    for (entry, risk) in row.iter_mut().zip(risks) {
        *entry = units.risk(i128::from(*risk));
    }
}

/// Writes the risks of intervention `i` at start `s` in period `t` into a row, and answers how many there are.
fn read_row<L: Ledger>(
    inst: &Instance,
    units: Units,
    i: u32,
    s: u32,
    t: u32,
    row: &mut [i64],
    steps: &mut Steps<L>,
) -> usize
    requires number { i < length inst.now.names }
    requires allowed { IsTrue (is_allowed inst.now i s) }
    requires running { IsTrue (in_run inst.now i s t) }
    requires from { 1 ≤ t }
    requires to { t ≤ inst.now.periods }
{
    let risks = inst.risks(i, s, t, steps);
    match risks {
        RiskNumbers::Narrow(narrow) => copy_narrow(row, narrow, units),
        RiskNumbers::Wide(wide) => {
            for (entry, risk) in row.iter_mut().zip(wide) {
                *entry = units.risk(risk.count());
            }
        }
    }
    risks.len()
}

/// The same on a new ledger, where there is such a run: elsewhere nothing is written.
fn read_run<L: Ledger>(
    inst: &Instance,
    units: Units,
    of: Run,
    t: u32,
    row: &mut [i64],
    blank: Blank,
) -> usize
    requires name { blank.name ≡ L.name }
    requires parts { blank.parts ≡ L.parts }
    requires some { 0 < blank.parts }
{
    let mut steps: Steps<L> = Steps::zero(blank);
    if of.work >= inst.interventions() || !inst.allowed(of.work, of.from) {
        return 0;
    }
    let window = run(inst, of.work, of.from);
    if t < window.from || window.past <= t {
        return 0;
    }
    read_row(inst, units, of.work, of.from, t, row, &mut steps)
}

impl<'a> Rows<'a> {
    /// None as yet, of so many pieces, with room for rows in so many bytes.
    pub(crate) fn make(
        alloc: Global,
        inst: &'a Instance,
        units: Units,
        width: usize,
        pieces: usize,
        bytes: usize,
    ) -> Result<Rows<'a>, AllocError> {
        let width = width.clamp(1, 1024);
        let slots = pieces.min(bytes / (8 * width + 8)).min(16_777_216);
        let all = slots + SPARES;
        Ok(Rows {
            inst,
            units,
            width,
            slots,
            tags: vec![in alloc; 0; all]?,
            risks: vec![in alloc; 0; all * width]?,
            pieces: vec![in alloc; Piece::empty(); pieces.min(MOST_PIECES)]?,
        })
    }

    /// The risks in a slot.
    #[inline]
    fn row(&self, slot: usize) -> &[i64] {
        if slot == NO_SLOT {
            return &[];
        }
        let from = slot.wrapping_mul(self.width).min(self.risks.len());
        let past = from.wrapping_add(self.width).min(self.risks.len());
        &self.risks[from.min(past)..past]
    }

    /// Reads the risks of a run in period `t` into a slot.
    #[inline(never)]
    fn fill(&mut self, of: Run, t: usize, slot: usize) {
        let tag = of.piece_in(t).wrapping_add(1);
        let from = slot.wrapping_mul(self.width).min(self.risks.len());
        let past = from.wrapping_add(self.width).min(self.risks.len());
        let row = &mut self.risks[from.min(past)..past];
        let count = read_run::<Brand>(self.inst, self.units, of, low(t), row, Blank::new(1));
        let count = count.min(row.len());
        let piece = Piece::of(tag, &row[..count]);
        if let Some(entry) = self.tags.get_mut(slot) {
            *entry = tag;
        }
        let place = slot_of(of.piece_in(t), self.pieces.len());
        if let Some(entry) = self.pieces.get_mut(place) {
            *entry = piece;
        }
    }

    /// What the risks of a run come to in period `t`.
    #[inline]
    pub(crate) fn piece(&mut self, of: Run, t: usize) -> Piece {
        let number = of.piece_in(t);
        let place = slot_of(number, self.pieces.len());
        match self.pieces.get(place) {
            Some(piece) if piece.tag == number.wrapping_add(1) => *piece,
            _ => self.read_piece(of, t, place),
        }
    }

    /// The same, read from the instance.
    #[inline(never)]
    fn read_piece(&mut self, of: Run, t: usize, place: usize) -> Piece {
        self.fill(of, t, slot_of(of.piece_in(t), self.slots));
        match self.pieces.get(place) {
            Some(piece) => *piece,
            None => Piece::empty(),
        }
    }

    /// The slot in which the risks of a run in period `t` stand then: a spare one where its own is one of three others.
    #[inline]
    fn slot(&mut self, of: Run, t: usize, spare: usize, others: [usize; 3]) -> usize {
        if !of.meets(t) {
            return NO_SLOT;
        }
        let number = of.piece_in(t);
        let own = slot_of(number, self.slots);
        let slot = if own == others[0] || own == others[1] || own == others[2] {
            self.slots.wrapping_add(spare)
        } else {
            own
        };
        match self.tags.get(slot) {
            Some(tag) if *tag == number.wrapping_add(1) => {}
            _ => self.fill(of, t, slot),
        }
        slot
    }

    /// Where the risks of all runs of a change stand in period `t`.
    #[inline]
    pub(crate) fn slots(&mut self, change: &Change, t: usize) -> Slots {
        let come = self.slot(change.come, t, 0, [NO_SLOT, NO_SLOT, NO_SLOT]);
        let gone = self.slot(change.gone, t, 1, [come, NO_SLOT, NO_SLOT]);
        let second_come = self.slot(change.second_come, t, 2, [come, gone, NO_SLOT]);
        let second_gone = self.slot(change.second_gone, t, 3, [come, gone, second_come]);
        Slots {
            come,
            gone,
            second_come,
            second_gone,
        }
    }

    /// What a change adds to the sums of a period, by scenario.
    #[inline]
    pub(crate) fn deltas(&self, slots: Slots) -> Deltas<'_> {
        Deltas {
            come: self.row(slots.come),
            gone: self.row(slots.gone),
            second_come: self.row(slots.second_come),
            second_gone: self.row(slots.second_gone),
        }
    }
}
