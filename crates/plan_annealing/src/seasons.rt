//! Exclusions: whether a run would be in progress with one that it excludes, in a period of the season.
//!
//! For each season and period the least period of the season from there on is kept: two runs clash where that of the
//! first period that they share is one of the last ones. That takes two bytes for what masks take a bit of each run.

ghost use Rattle.std.specs.Prelude.{◌<◌, length};

use crate::run::Run;
use instance_model::Instance;
use std::alloc::{AllocError, Global};

/// The other intervention of an exclusion, and its season.
#[derive(Clone, Copy)]
struct Partner {
    work: u32,
    season: u32,
}

/// The exclusions by intervention, and the periods of each season.
#[derive(Drop)]
pub(crate) struct Seasons {
    /// How many entries a season has: one for each period, counted from 0 to one past the last.
    stride: usize,
    next: Vec<u16>,
    partners: Vec<Partner>,
    /// By intervention, and one more: where its exclusions begin.
    firsts: Vec<usize>,
}

/// No period.
const NEVER: u16 = u16::MAX;

/// Puts the least periods of a season from each period on behind others.
fn push_season(next: &mut Vec<u16>, inst: &Instance, q: u32) -> Result<(), AllocError>
    requires { q < length inst.now.season_names }
{
    let from = next.len();
    let periods = inst.periods();
    for _ in 0..periods + 2 {
        next.push(NEVER)?;
    }
    let mut least = NEVER;
    for t in (1..periods + 1).rev() {
        if inst.in_season(q, t) {
            least = (t & 0xffff) as u16;
        }
        if let Some(entry) = next.get_mut(from.wrapping_add(t as usize)) {
            *entry = least;
        }
    }
    Ok(())
}

impl Seasons {
    pub(crate) fn make(alloc: Global, inst: &Instance) -> Result<Seasons, AllocError> {
        let mut seasons = Seasons {
            stride: inst.periods() as usize + 2,
            next: Vec::new(alloc),
            partners: Vec::new(alloc),
            firsts: Vec::new(alloc),
        };
        for q in 0..inst.seasons() {
            push_season(&mut seasons.next, inst, q)?;
        }
        for i in 0..inst.interventions() {
            seasons.firsts.push(seasons.partners.len())?;
            seasons.add_work(inst, i)?;
        }
        seasons.firsts.push(seasons.partners.len())?;
        Ok(seasons)
    }

    /// Adds the exclusions of the next intervention.
    fn add_work(&mut self, inst: &Instance, i: u32) -> Result<(), AllocError> {
        for e in 0..inst.exclusions() {
            let exclusion = inst.exclusion(e);
            let season = exclusion.season;
            if exclusion.first == i {
                let work = exclusion.second;
                self.partners.push(Partner { work, season })?;
            } else if exclusion.second == i {
                let work = exclusion.first;
                self.partners.push(Partner { work, season })?;
            }
        }
        Ok(())
    }

    /// Where the exclusions of an intervention begin.
    #[inline]
    fn first(&self, work: usize) -> usize {
        match self.firsts.get(work) {
            Some(first) => *first,
            None => 0,
        }
    }

    /// Whether two runs share a period of a season.
    #[inline]
    fn meet(&self, season: u32, a: Run, b: Run) -> bool {
        let from = a.from.max(b.from) as usize;
        let past = a.past.min(b.past) as usize;
        if from >= past {
            return false;
        }
        let place = (season as usize)
            .wrapping_mul(self.stride)
            .wrapping_add(from);
        match self.next.get(place) {
            Some(least) => (*least as usize) < past,
            None => false,
        }
    }

    /// Whether a run clashes with one of the others, or with itself.
    #[inline]
    pub(crate) fn clashes(&self, others: &[Run], run: Run) -> bool {
        let work = run.work as usize;
        for k in self.first(work)..self.first(work.wrapping_add(1)) {
            if let Some(partner) = self.partners.get(k) {
                let other = if partner.work == run.work {
                    run
                } else {
                    at(others, partner.work as usize)
                };
                if self.meet(partner.season, run, other) {
                    return true;
                }
            }
        }
        false
    }
}

/// The run of an intervention.
#[inline]
pub(crate) fn at(runs: &[Run], work: usize) -> Run {
    match runs.get(work) {
        Some(run) => *run,
        None => Run::none(),
    }
}
