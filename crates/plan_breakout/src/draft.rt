//! A plan on arrays of its own, what it breaks, and which change mends a broken thing best.
ghost use Rattle.std.specs.Prelude.{◌≡◌, length};
ghost use Rattle.instance_model.specs.Plans.{AreAllowedStarts};

use crate::arrays::{NOWHERE, entry, filled, put};
use crate::bands::{Band, idle_bands};
use crate::broken::Broken;
use crate::covers::Covers;
use crate::exclusions::Exclusions;
use crate::runs::{Run, Runs, Work};
use drawn_words::Words;
use instance_model::Instance;
use std::alloc::{AllocError, Global};

/// How far a broken exclusion counts as outside, in counts of 10^-6.
const CLASH: i64 = 1_000_000;

/// For how many rounds a start that was left is held back: so many, and up to as many more.
const HOLD: usize = 20;

/// The run of least rise of those that were tried, and how many of them rise as little.
#[derive(Clone, Copy)]
struct Choice {
    number: usize,
    rise: i64,
    ties: usize,
}

impl Choice {
    /// None was tried.
    fn none() -> Choice {
        Choice {
            number: NOWHERE,
            rise: i64::MAX,
            ties: 0,
        }
    }
}

/// A plan, as numbers of runs.
#[derive(Drop)]
pub(crate) struct Draft {
    runs: Runs,
    covers: Covers,
    exclusions: Exclusions,
    bands: Vec<Band>,
    /// Places of bands, and behind them numbers of exclusions.
    broken: Broken,
    words: Words,
    /// By intervention: its run, and that of the best plan so far.
    present: Vec<usize>,
    best: Vec<usize>,
    /// How far the best plan is outside.
    least: i64,
    /// By run: the round from which it may be taken again.
    held: Vec<usize>,
    /// What loads below their lower limits weigh as a round begins.
    below: i64,
    /// The present run whose workloads are off the bands, the rise that it would bring, and by how much a run lowers the
    /// weighed violation at most.
    lifted: usize,
    here: i64,
    fall: i64,
    choice: Choice,
}

/// Puts workloads on the bands.
fn add_works(bands: &mut [Band], works: &[Work]) {
    for work in works {
        if let Some(band) = bands.get_mut(work.place) {
            band.add(work.amount);
        }
    }
}

/// Takes workloads off the bands.
fn take_works(bands: &mut [Band], works: &[Work]) {
    for work in works {
        if let Some(band) = bands.get_mut(work.place) {
            band.take(work.amount);
        }
    }
}

impl Draft {
    /// The plan of these starts, and the numbers that are drawn from this seed. Takes memory, as no other call does.
    pub(crate) fn make(
        alloc: Global,
        inst: &Instance,
        starts: &[u32],
        seed: u64,
    ) -> Result<Draft, AllocError> {
        let runs = Runs::make(alloc, inst)?;
        let exclusions = Exclusions::make(alloc, inst)?;
        let bands = idle_bands(alloc, inst)?;
        let places = bands.len();
        let things = places.wrapping_add(exclusions.pairs.len());
        let covers = Covers::make(alloc, &runs, places)?;
        let held = filled(alloc, 0, runs.count())?;
        let mut draft = Draft {
            runs,
            covers,
            exclusions,
            bands,
            broken: Broken::make(alloc, things)?,
            words: Words::new(seed),
            present: filled(alloc, 0, starts.len())?,
            best: filled(alloc, 0, starts.len())?,
            least: i64::MAX,
            held,
            below: 0,
            lifted: NOWHERE,
            here: 0,
            fall: 0,
            choice: Choice::none(),
        };
        draft.begin_at(starts);
        Ok(draft)
    }

    /// Puts the runs of these starts on idle bands.
    fn begin_at(&mut self, starts: &[u32]) {
        for i in 0..starts.len() {
            let number = self.runs.find(i, starts[i]);
            put(&mut self.present, i, number);
            add_works(&mut self.bands, self.runs.works(number));
        }
        for place in 0..self.bands.len() {
            self.note_band(place);
        }
        for e in 0..self.exclusions.pairs.len() {
            self.note_exclusion(e);
        }
        self.note_best();
    }

    /// Whether nothing is broken.
    pub(crate) fn is_whole(&self) -> bool {
        self.broken.count() == 0
    }

    /// How many runs there are.
    pub(crate) fn runs(&self) -> usize {
        self.runs.count()
    }

    /// The start of intervention `i` in the best plan.
    pub(crate) fn best_start(&self, i: u32) -> u32 {
        self.runs.at(entry(&self.best, i as usize)).from
    }

    /// Keeps what is known of a band.
    #[inline]
    fn note_band(&mut self, place: usize) {
        if let Some(band) = self.bands.get(place) {
            self.broken.mark(place, band.gap() > 0);
        }
    }

    /// The present run of an intervention.
    #[inline]
    fn present_run(&self, i: usize) -> Run {
        self.runs.at(entry(&self.present, i))
    }

    /// Whether the present runs break an exclusion.
    fn is_clashing(&self, e: usize) -> bool {
        match self.exclusions.pairs.get(e) {
            Some(pair) => {
                let first = self.present_run(pair.first);
                let second = self.present_run(pair.second);
                self.exclusions.meet(pair.season, first, second)
            }
            None => false,
        }
    }

    /// Keeps what is known of an exclusion.
    fn note_exclusion(&mut self, e: usize) {
        let broken = self.is_clashing(e);
        let number = self.bands.len().wrapping_add(e);
        self.broken.mark(number, broken);
    }

    /// How far all loads are outside their limits, with as much for each broken exclusion as the key of a plan has.
    fn violation(&self) -> i64 {
        let mut sum: i64 = 0;
        for k in 0..self.broken.count() {
            let gap = match self.bands.get(self.broken.at(k)) {
                Some(band) => band.gap(),
                None => CLASH,
            };
            sum = sum.saturating_add(gap);
        }
        sum
    }

    /// Takes over the present plan, where it is less far outside than the best one.
    pub(crate) fn note_best(&mut self) {
        let violation = self.violation();
        if violation < self.least {
            self.least = violation;
            for i in 0..self.present.len() {
                put(&mut self.best, i, entry(&self.present, i));
            }
        }
    }

    /// What the exclusions weigh that a run breaks.
    #[inline]
    fn clash_weight(&self, run: Run) -> i64 {
        let mut sum: i64 = 0;
        for e in self.exclusions.of(run.i) {
            if let Some(pair) = self.exclusions.pairs.get(*e) {
                let other = pair.other(run.i);
                let facing = if other == run.i {
                    run
                } else {
                    self.present_run(other)
                };
                if self.exclusions.meet(pair.season, run, facing) {
                    sum = sum.saturating_add(pair.weight.now());
                }
            }
        }
        sum
    }

    /// By how much the weighed violation grows with a run, where its intervention is off the bands. Where that is above a
    /// limit it may be any number above it.
    #[inline]
    fn rise(&self, number: usize, limit: i64) -> i64 {
        let most = limit.saturating_add(self.fall);
        let mut rise = self.clash_weight(self.runs.at(number));
        for work in self.runs.works(number) {
            if rise > most {
                break;
            }
            if let Some(band) = self.bands.get(work.place) {
                rise = rise.saturating_add(band.rise(work.amount));
            }
        }
        rise
    }

    /// What loads below their lower limits weigh.
    fn cost_below(&self) -> i64 {
        let mut sum: i64 = 0;
        for k in 0..self.broken.count() {
            if let Some(band) = self.bands.get(self.broken.at(k)) {
                sum = sum.saturating_add(band.cost_below());
            }
        }
        sum
    }

    /// By how much a run lowers the weighed violation at most, where this one is off the bands: by what all loads weigh
    /// below their lower limits, if no workload is negative.
    #[inline]
    fn most_fall(&self, number: usize) -> i64 {
        if self.runs.has_negative() {
            return i64::MAX;
        }
        let mut sum = self.below;
        for work in self.runs.works(number) {
            if let Some(band) = self.bands.get(work.place) {
                sum = sum.saturating_add(band.cost_below());
            }
        }
        sum
    }

    /// Puts the run back on the bands that is off them.
    fn put_back(&mut self) {
        add_works(&mut self.bands, self.runs.works(self.lifted));
        self.lifted = NOWHERE;
    }

    /// Takes the run of an intervention off the bands, and no other one.
    #[inline]
    fn lift(&mut self, i: usize) {
        let own = entry(&self.present, i);
        if own != self.lifted {
            self.put_back();
            take_works(&mut self.bands, self.runs.works(own));
            self.lifted = own;
            self.here = self.rise(own, i64::MAX);
            self.fall = self.most_fall(own);
        }
    }

    /// Takes a run for the choice, where it rises less, or as little and a draw is for it.
    #[inline]
    fn consider(&mut self, number: usize, rise: i64) {
        if rise < self.choice.rise {
            self.choice = Choice {
                number,
                rise,
                ties: 1,
            };
        } else if rise == self.choice.rise {
            self.choice.ties = self.choice.ties.wrapping_add(1);
            if self.words.draw(self.choice.ties) == 0 {
                self.choice.number = number;
            }
        }
    }

    /// Tries a run, where it isn't the present one of its intervention and isn't held back.
    #[inline]
    fn try_run(&mut self, number: usize, round: usize) {
        let i = self.runs.at(number).i;
        if number != entry(&self.present, i) && entry(&self.held, number) <= round {
            self.lift(i);
            let limit = self.choice.rise.saturating_add(self.here);
            let rise = self.rise(number, limit).saturating_sub(self.here);
            self.consider(number, rise);
        }
    }

    /// Tries all runs of an intervention.
    fn try_all(&mut self, i: usize, round: usize) {
        for number in self.runs.first(i)..self.runs.first(i.wrapping_add(1)) {
            self.try_run(number, round);
        }
    }

    /// Tries what may mend an exclusion: all runs of both interventions.
    fn try_exclusion(&mut self, e: usize, round: usize) {
        if let Some(pair) = self.exclusions.pairs.get(e) {
            let (first, second) = (pair.first, pair.second);
            self.try_all(first, round);
            if second != first {
                self.try_all(second, round);
            }
        }
    }

    /// Tries what may mend a load above its upper limit: all runs of those that load the band.
    fn try_over(&mut self, place: usize, round: usize) {
        for k in 0..self.covers.count(place) {
            let number = self.covers.at(place, k);
            let i = self.runs.at(number).i;
            if entry(&self.present, i) == number {
                self.try_all(i, round);
            }
        }
    }

    /// Tries what may mend a load below its lower limit: the runs that load the band.
    fn try_under(&mut self, place: usize, round: usize) {
        for k in 0..self.covers.count(place) {
            let number = self.covers.at(place, k);
            self.try_run(number, round);
        }
    }

    /// Whether the load of a band is above its upper limit.
    fn is_over(&self, place: usize) -> bool {
        match self.bands.get(place) {
            Some(band) => band.is_over(),
            None => false,
        }
    }

    /// Tries what may mend a broken thing.
    fn try_broken(&mut self, number: usize, round: usize) {
        let places = self.bands.len();
        if number >= places {
            self.try_exclusion(number.wrapping_sub(places), round);
        } else if self.is_over(number) {
            self.try_over(number, round);
        } else {
            self.try_under(number, round);
        }
    }

    /// From now on all that is broken weighs more.
    fn raise_broken(&mut self) {
        let places = self.bands.len();
        for k in 0..self.broken.count() {
            let number = self.broken.at(k);
            if let Some(band) = self.bands.get_mut(number) {
                band.raise();
            } else if let Some(pair) = self.exclusions.pairs.get_mut(number.wrapping_sub(places)) {
                pair.weight.raise();
            }
        }
    }

    /// Takes a part of what all weights have grown by.
    pub(crate) fn ease_all(&mut self) {
        for band in self.bands.iter_mut() {
            band.ease();
        }
        for pair in self.exclusions.pairs.iter_mut() {
            pair.weight.ease();
        }
    }

    /// Changes the present run of an intervention to this one.
    fn change_to(&mut self, number: usize) {
        let i = self.runs.at(number).i;
        let own = entry(&self.present, i);
        take_works(&mut self.bands, self.runs.works(own));
        add_works(&mut self.bands, self.runs.works(number));
        put(&mut self.present, i, number);
        self.note_works(own);
        self.note_works(number);
        self.note_exclusions(i);
    }

    /// Keeps what is known of the bands that a run loads.
    fn note_works(&mut self, number: usize) {
        for work in self.runs.works(number) {
            if let Some(band) = self.bands.get(work.place) {
                self.broken.mark(work.place, band.gap() > 0);
            }
        }
    }

    /// Keeps what is known of the exclusions of an intervention.
    fn note_exclusions(&mut self, i: usize) {
        for k in 0..self.exclusions.of(i).len() {
            let e = entry(self.exclusions.of(i), k);
            self.note_exclusion(e);
        }
    }

    /// One round: takes the change that mends a broken thing best, and holds back the run that is left. Whether it
    /// lowers the weighed violation: where it doesn't, all that is broken weighs more from now on.
    pub(crate) fn mend_one(&mut self, round: usize) -> bool {
        let broken = self.broken.at(self.words.draw(self.broken.count()));
        self.choice = Choice::none();
        self.below = self.cost_below();
        self.try_broken(broken, round);
        self.put_back();
        let Choice { number, rise, .. } = self.choice;
        if rise >= 0 {
            self.raise_broken();
        }
        if number != NOWHERE {
            let own = entry(&self.present, self.runs.at(number).i);
            self.change_to(number);
            let until = HOLD.wrapping_add(self.words.draw(HOLD + 1));
            put(&mut self.held, own, round.wrapping_add(until));
            self.note_best();
        }
        rise < 0
    }

    /// Begins anew from drawn runs, with the first weights and nothing held back.
    pub(crate) fn begin_anew(&mut self) {
        for i in 0..self.present.len() {
            let first = self.runs.first(i);
            let count = self.runs.first(i.wrapping_add(1)).saturating_sub(first);
            let number = first.wrapping_add(self.words.draw(count));
            self.change_to(number);
        }
        for band in self.bands.iter_mut() {
            band.reset();
        }
        for pair in self.exclusions.pairs.iter_mut() {
            pair.weight.reset();
        }
        self.held.fill(0);
    }
}
