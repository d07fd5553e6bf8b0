//! The runs that load each band.

use crate::arrays::{between, entry, filled, put};
use crate::runs::Runs;
use std::alloc::{AllocError, Global};

/// Numbers of runs by the place of a band, in order.
#[derive(Drop)]
pub(crate) struct Covers {
    /// By place, and two more: where its numbers begin.
    firsts: Vec<usize>,
    numbers: Vec<usize>,
}

impl Covers {
    /// The runs that load each of so many bands.
    pub(crate) fn make(alloc: Global, runs: &Runs, places: usize) -> Result<Covers, AllocError> {
        let mut covers = Covers {
            firsts: filled(alloc, 0, places.wrapping_add(2))?,
            numbers: filled(alloc, 0, runs.works_count())?,
        };
        for number in 0..runs.count() {
            covers.count_works(runs, number);
        }
        covers.add_up(places);
        for number in 0..runs.count() {
            covers.write_works(runs, number);
        }
        Ok(covers)
    }

    /// Counts the workloads of a run, two places behind those of their bands.
    fn count_works(&mut self, runs: &Runs, number: usize) {
        for work in runs.works(number) {
            let place = work.place.wrapping_add(2);
            let count = entry(&self.firsts, place).wrapping_add(1);
            put(&mut self.firsts, place, count);
        }
    }

    /// Makes of each count that of all places up to it.
    fn add_up(&mut self, places: usize) {
        let mut sum: usize = 0;
        for place in 0..places.wrapping_add(2) {
            sum = sum.wrapping_add(entry(&self.firsts, place));
            put(&mut self.firsts, place, sum);
        }
    }

    /// Writes the number of a run behind those of earlier ones, at each band that it loads.
    fn write_works(&mut self, runs: &Runs, number: usize) {
        for work in runs.works(number) {
            let place = work.place.wrapping_add(1);
            let next = entry(&self.firsts, place);
            put(&mut self.numbers, next, number);
            put(&mut self.firsts, place, next.wrapping_add(1));
        }
    }

    /// How many runs load the band at this place.
    pub(crate) fn count(&self, place: usize) -> usize {
        self.of(place).len()
    }

    /// The runs that load the band at this place.
    fn of(&self, place: usize) -> &[usize] {
        let from = entry(&self.firsts, place);
        let past = entry(&self.firsts, place.wrapping_add(1));
        between(&self.numbers, from, past)
    }

    /// Run `k` of those that load the band at this place.
    pub(crate) fn at(&self, place: usize, k: usize) -> usize {
        entry(self.of(place), k)
    }
}
