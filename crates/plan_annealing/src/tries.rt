//! Tries: a change that is drawn, made where it keeps the rules and raises the score by less than a limit.

use crate::change::Change;
use crate::run::Run;
use crate::state::State;
use drawn_words::Words;

/// How many moves of 100 go to a near start, and how far that is at most.
const NEAR: usize = 60;

const REACH: usize = 4;

impl<'a> State<'a> {
    /// A drawn start of an intervention that is at `present`: a near one, which may not be allowed, or any allowed one.
    #[inline]
    fn drawn_start(&self, words: &mut Words, work: usize, present: usize) -> usize {
        if words.draw(100) >= NEAR {
            let k = words.draw(self.runs.count(work));
            return self.runs.start(work, k);
        }
        let way = words.draw(2 * REACH);
        if way < REACH {
            present.wrapping_add(1 + way)
        } else {
            present.wrapping_sub(way - REACH + 1)
        }
    }

    /// Whether a move keeps the rules.
    #[inline]
    pub(crate) fn keeps_move(&self, gone: Run, come: Run) -> bool {
        !self.seasons.clashes(&self.present, come) && self.bands.keeps_move(gone, come)
    }

    /// Makes a move.
    #[inline]
    pub(crate) fn make_move(&mut self, change: &Change) {
        self.bands.make_change(change);
        self.make_change(change);
    }

    /// Tries to move an intervention.
    #[inline]
    fn try_move(&mut self, words: &mut Words, limit: i64) {
        let work = words.draw(self.count());
        let gone = self.run(work);
        let start = self.drawn_start(words, work, gone.from as usize);
        if start == gone.from as usize {
            return;
        }
        let Some(come) = self.runs.at(work, start) else {
            return;
        };
        if !self.keeps_move(gone, come) {
            return;
        }
        let change = Change::one(gone, come);
        if self.rise_below(&change, limit).is_some() {
            self.make_move(&change);
            self.note_best();
        }
    }

    /// The exchange of the starts of two interventions, if they are two, and both are allowed there.
    #[inline]
    pub(crate) fn exchange(&self, first: usize, second: usize) -> Option<Change> {
        let gone = self.run(first);
        let second_gone = self.run(second);
        if gone.from == second_gone.from {
            return None;
        }
        let come = self.runs.at(first, second_gone.from as usize)?;
        let second_come = self.runs.at(second, gone.from as usize)?;
        Some(Change {
            gone,
            come,
            second_gone,
            second_come,
        })
    }

    /// Makes an exchange in plan and loads, if it keeps the rules.
    pub(crate) fn keeps_exchange(&mut self, change: &Change) -> bool {
        if !self.bands.may_exchange(change) {
            return false;
        }
        self.set(change.come);
        self.set(change.second_come);
        let kept = !self.seasons.clashes(&self.present, change.come)
            && !self.seasons.clashes(&self.present, change.second_come)
            && self.bands.try_exchange(change);
        if !kept {
            self.set(change.gone);
            self.set(change.second_gone);
        }
        kept
    }

    /// Takes an exchange back in plan and loads.
    pub(crate) fn undo_exchange(&mut self, change: &Change) {
        self.bands.undo_change(change);
        self.set(change.gone);
        self.set(change.second_gone);
    }

    /// Tries to exchange the starts of two interventions.
    #[inline]
    fn try_exchange(&mut self, words: &mut Words, limit: i64) {
        let first = words.draw(self.count());
        let second = words.draw(self.count());
        let Some(change) = self.exchange(first, second) else {
            return;
        };
        if !self.keeps_exchange(&change) {
            return;
        }
        if self.rise_below(&change, limit).is_some() {
            self.make_change(&change);
            self.note_best();
        } else {
            self.undo_exchange(&change);
        }
    }

    /// One try: half of them are exchanges.
    #[inline]
    pub(crate) fn try_once(&mut self, words: &mut Words, limit: i64) {
        if words.draw(2) == 0 {
            self.try_exchange(words, limit);
        } else {
            self.try_move(words, limit);
        }
    }
}
