//! Exclusions with their weights, and whether two runs share a period of a season.
//!
//! For each season and period the least period of the season from there on is kept: two runs share one where that of
//! the first period that is in both is one of them.
ghost use Rattle.std.specs.Prelude.{◌<◌, length};

use crate::arrays::{NOWHERE, between, entry, put};
use crate::bands::UNIT;
use crate::runs::Run;
use crate::weight::Weight;
use instance_model::Instance;
use std::alloc::{AllocError, Global};

/// Two interventions that exclude each other in a season.
#[derive(Clone, Copy)]
pub(crate) struct Pair {
    pub(crate) first: usize,
    pub(crate) second: usize,
    pub(crate) season: usize,
    pub(crate) weight: Weight,
}

/// The exclusions, those of each intervention, and the periods of each season.
#[derive(Drop)]
pub(crate) struct Exclusions {
    pub(crate) pairs: Vec<Pair>,
    /// The numbers of the exclusions of each intervention.
    numbers: Vec<usize>,
    /// By intervention, and one more: where its numbers begin.
    firsts: Vec<usize>,
    /// How many entries a season has: one for each period, counted from 0 to one behind the last.
    stride: usize,
    next: Vec<usize>,
}

impl Pair {
    /// The intervention that this one excludes.
    #[inline]
    pub(crate) fn other(self, i: usize) -> usize {
        if self.first == i {
            self.second
        } else {
            self.first
        }
    }
}

/// Puts the least periods of season `q` from each period on behind others.
fn push_season(next: &mut Vec<usize>, inst: &Instance, q: u32) -> Result<(), AllocError>
    requires { q < length inst.now.season_names }
{
    let from = next.len();
    let periods = inst.periods();
    for _ in 0..periods + 2 {
        next.push(NOWHERE)?;
    }
    let mut least = NOWHERE;
    for t in (1..periods + 1).rev() {
        if inst.in_season(q, t) {
            least = t as usize;
        }
        put(next, from.wrapping_add(t as usize), least);
    }
    Ok(())
}

impl Exclusions {
    pub(crate) fn make(alloc: Global, inst: &Instance) -> Result<Exclusions, AllocError> {
        let mut exclusions = Exclusions {
            pairs: Vec::new(alloc),
            numbers: Vec::new(alloc),
            firsts: Vec::new(alloc),
            stride: inst.periods() as usize + 2,
            next: Vec::new(alloc),
        };
        for q in 0..inst.seasons() {
            push_season(&mut exclusions.next, inst, q)?;
        }
        for e in 0..inst.exclusions() {
            let exclusion = inst.exclusion(e);
            exclusions.pairs.push(Pair {
                first: exclusion.first as usize,
                second: exclusion.second as usize,
                season: exclusion.season as usize,
                weight: Weight::new(UNIT),
            })?;
        }
        for i in 0..inst.interventions() {
            exclusions.firsts.push(exclusions.numbers.len())?;
            exclusions.add_numbers(i as usize)?;
        }
        exclusions.firsts.push(exclusions.numbers.len())?;
        Ok(exclusions)
    }

    /// Adds the numbers of the exclusions of intervention `i`.
    fn add_numbers(&mut self, i: usize) -> Result<(), AllocError> {
        for e in 0..self.pairs.len() {
            let pair = self.pairs[e];
            if pair.first == i || pair.second == i {
                self.numbers.push(e)?;
            }
        }
        Ok(())
    }

    /// The numbers of the exclusions of an intervention.
    #[inline]
    pub(crate) fn of(&self, i: usize) -> &[usize] {
        let from = entry(&self.firsts, i);
        let past = entry(&self.firsts, i.wrapping_add(1));
        between(&self.numbers, from, past)
    }

    /// Whether two runs share a period of a season.
    #[inline]
    pub(crate) fn meet(&self, season: usize, a: Run, b: Run) -> bool {
        let from = a.from.max(b.from) as usize;
        let past = a.past.min(b.past) as usize;
        let place = season.wrapping_mul(self.stride).wrapping_add(from);
        match self.next.get(place) {
            Some(least) => from < past && *least < past,
            None => false,
        }
    }
}
