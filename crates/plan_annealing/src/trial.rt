//! For tests alone: changes as the search judges and makes them, one by one.

use crate::change::Change;
use crate::state::State;
use instance_model::Instance;
use std::alloc::{AllocError, Global};

/// A plan with all that the search keeps of it, which is of use where the plan keeps every rule.
#[derive(Drop)]
pub struct Trial<'a> {
    state: State<'a>,
}

impl<'a> Trial<'a> {
    /// That of a plan. Takes all memory.
    pub fn begin(alloc: Global, inst: &'a Instance, plan: &[u32]) -> Result<Trial<'a>, AllocError> {
        Ok(Trial {
            state: State::make(alloc, inst, plan)?,
        })
    }

    /// How many bits are dropped: scores are counted in so many powers of 2 of 10^-18.
    pub fn dropped_bits(&self) -> u32 {
        self.state.units.dropped_bits()
    }

    /// The score of the present plan.
    pub fn score(&self) -> i64 {
        self.state.score
    }

    /// The move of intervention `i` to `s`, if that is allowed and keeps the rules.
    fn kept_move(&self, i: u32, s: u32) -> Option<Change> {
        let gone = self.state.run(i as usize);
        let come = self.state.runs.at(i as usize, s as usize)?;
        if self.state.keeps_move(gone, come) {
            Some(Change::one(gone, come))
        } else {
            None
        }
    }

    /// By how much the score rises where intervention `i` moves to `s`: none where that breaks a rule.
    pub fn move_rise(&mut self, i: u32, s: u32) -> Option<i64> {
        let change = self.kept_move(i, s)?;
        self.state.rise_below(&change, i64::MAX)
    }

    /// By how much it rises where two interventions exchange their starts: none where that breaks a rule, and where
    /// their starts are the same.
    pub fn exchange_rise(&mut self, i: u32, j: u32) -> Option<i64> {
        let change = self.state.exchange(i as usize, j as usize)?;
        if !self.state.keeps_exchange(&change) {
            return None;
        }
        let rise = self.state.rise_below(&change, i64::MAX);
        self.state.undo_exchange(&change);
        rise
    }

    /// Moves an intervention, where that keeps the rules. Tells whether it did.
    pub fn make_move(&mut self, i: u32, s: u32) -> bool {
        let Some(change) = self.kept_move(i, s) else {
            return false;
        };
        self.state.make_move(&change);
        true
    }

    /// Exchanges the starts of two interventions, where that keeps the rules. Tells whether it did.
    pub fn make_exchange(&mut self, i: u32, j: u32) -> bool {
        let Some(change) = self.state.exchange(i as usize, j as usize) else {
            return false;
        };
        let kept = self.state.keeps_exchange(&change);
        if kept {
            self.state.make_change(&change);
        }
        kept
    }
}
