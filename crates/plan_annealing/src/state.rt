//! The plan as it changes, with all that follows from it.

ghost use Rattle.std.specs.Prelude.{◌<◌, ◌≤◌};

use crate::bands::Bands;
use crate::change::Change;
use crate::period::{Outlook, Period};
use crate::rows::{MOST_PIECES, Rows};
use crate::run::Run;
use crate::runs::Runs;
use crate::scan::{Ranked, change_sums};
use crate::seasons::{Seasons, at};
use crate::units::Units;
use crate::works::MOST_WORKS;
use instance_model::Instance;
use std::alloc::{AllocError, Global};

/// About how many bytes all arrays may take.
const BYTES: usize = 58_000_000;

/// A plan, its loads, sums and values, and the best plan that was met.
#[derive(Drop)]
pub(crate) struct State<'a> {
    pub(crate) units: Units,
    pub(crate) runs: Runs,
    pub(crate) seasons: Seasons,
    pub(crate) bands: Bands<'a>,
    pub(crate) rows: Rows<'a>,
    pub(crate) periods: Vec<Period>,
    /// The sums of all periods: those of each fall.
    pub(crate) ranked: Vec<Ranked>,
    /// By period.
    pub(crate) outlooks: Vec<Outlook>,
    /// Room for the greatest sums of a period.
    pub(crate) sums: Vec<i64>,
    /// By intervention.
    pub(crate) present: Vec<Run>,
    pub(crate) starts: Vec<u32>,
    pub(crate) best: Vec<u32>,
    pub(crate) score: i64,
    pub(crate) best_score: i64,
}

/// The most scenarios of a period.
fn most_scenarios(inst: &Instance) -> usize
    ensures { result ≤ 1024 }
{
    let mut most = 0;
    for t in 1..inst.periods() + 1 {
        most = most.max(inst.scenarios(t) as usize);
    }
    most.min(1024)
}

/// The periods, with sums of 0.
fn idle_periods(alloc: Global, inst: &Instance) -> Result<(Vec<Period>, Vec<Ranked>), AllocError> {
    let mut periods = Vec::new(alloc);
    let mut ranked = Vec::new(alloc);
    for t in 1..inst.periods() + 1 {
        let scenarios = inst.scenarios(t);
        periods.push(Period {
            scenarios,
            first: ranked.len(),
            high: (scenarios - inst.rank(t) + 1) as usize,
            total: 0,
            quantile: 0,
            value: 0,
        })?;
        for scenario in 0..scenarios {
            ranked.push(Ranked { sum: 0, scenario })?;
        }
    }
    Ok((periods, ranked))
}

/// How many bytes are left for rows, about, where there are so many pieces.
fn room_for_rows(inst: &Instance, width: usize, pieces: usize) -> usize {
    let periods = inst.periods() as usize;
    let runs = (inst.interventions() as usize)
        .wrapping_mul(periods)
        .wrapping_mul(32);
    let sums = periods.wrapping_mul(width).wrapping_mul(16);
    let exclusions = (inst.exclusions() as usize).wrapping_mul(32);
    BYTES
        .saturating_sub(runs)
        .saturating_sub(sums)
        .saturating_sub(exclusions)
        .saturating_sub(MOST_WORKS.wrapping_mul(16))
        .saturating_sub(pieces.min(MOST_PIECES).wrapping_mul(32))
}

impl<'a> State<'a> {
    /// The state of a plan of allowed starts.
    pub(crate) fn make(
        alloc: Global,
        inst: &'a Instance,
        plan: &[u32],
    ) -> Result<State<'a>, AllocError> {
        let width = most_scenarios(inst);
        let units = Units::of(inst, width);
        let runs = Runs::make(alloc, inst)?;
        let pieces = runs.pieces();
        let (periods, ranked) = idle_periods(alloc, inst)?;
        let count = inst.interventions() as usize;
        let mut state = State {
            units,
            runs,
            seasons: Seasons::make(alloc, inst)?,
            bands: Bands::make(alloc, inst)?,
            rows: Rows::make(
                alloc,
                inst,
                units,
                width,
                pieces,
                room_for_rows(inst, width, pieces),
            )?,
            periods,
            ranked,
            outlooks: vec![in alloc; Outlook::empty(); inst.periods() as usize]?,
            sums: vec![in alloc; 0; width]?,
            present: vec![in alloc; Run::none(); count]?,
            starts: vec![in alloc; 0; count]?,
            best: plan.to_vec(alloc)?,
            score: 0,
            best_score: 0,
        };
        state.begin(plan);
        Ok(state)
    }

    /// Puts all interventions at their starts.
    fn begin(&mut self, plan: &[u32]) {
        for i in 0..plan.len() {
            if let Some(run) = self.runs.at(i, plan[i] as usize) {
                let change = Change::one(Run::none(), run);
                self.bands.make_change(&change);
                self.make_change(&change);
            }
        }
        self.best_score = self.score;
    }

    /// How many interventions there are.
    #[inline]
    pub(crate) fn count(&self) -> usize {
        self.present.len()
    }

    /// The run of an intervention.
    #[inline]
    pub(crate) fn run(&self, work: usize) -> Run {
        at(&self.present, work)
    }

    /// Puts a run in the place of that of the same intervention.
    #[inline]
    pub(crate) fn set(&mut self, run: Run) {
        let work = run.work as usize;
        if let Some(entry) = self.present.get_mut(work) {
            *entry = run;
        }
        if let Some(entry) = self.starts.get_mut(work) {
            *entry = run.from;
        }
    }

    /// Makes a change whose loads are changed already.
    pub(crate) fn make_change(&mut self, change: &Change) {
        let new = change.new_span();
        let old = change.old_span();
        for t in new.from..new.past {
            self.change_period(change, t);
        }
        for t in old.from..old.past {
            if !new.has(t) {
                self.change_period(change, t);
            }
        }
        self.set(change.come);
        if change.second_come.past > 0 {
            self.set(change.second_come);
        }
    }

    /// Changes the sums of period `t`.
    fn change_period(&mut self, change: &Change, t: usize) {
        if self.units.has_mean_alone() {
            self.change_total(change, t);
            return;
        }
        let Some(period) = self.periods.get_mut(t.wrapping_sub(1)) else {
            return;
        };
        let slots = self.rows.slots(change, t);
        let first = period.first.min(self.ranked.len());
        let past = first
            .saturating_add(period.scenarios as usize)
            .min(self.ranked.len());
        let ranked = &mut self.ranked[first.min(past)..past];
        let rise = change_sums(ranked, self.rows.deltas(slots));
        period.total = period.total.wrapping_add(rise);
        period.quantile = match ranked.get(period.high.wrapping_sub(1)) {
            Some(entry) => entry.sum,
            None => 0,
        };
        let value = self
            .units
            .value(i64::from(period.scenarios), period.total, period.quantile);
        self.score = self.score.wrapping_add(value.wrapping_sub(period.value));
        period.value = value;
    }

    /// Changes the total of period `t`, where the mean alone counts.
    fn change_total(&mut self, change: &Change, t: usize) {
        let rise = self.total_rise(change, t);
        let Some(period) = self.periods.get_mut(t.wrapping_sub(1)) else {
            return;
        };
        period.total = period.total.wrapping_add(rise);
        let value = self
            .units
            .value(i64::from(period.scenarios), period.total, 0);
        self.score = self.score.wrapping_add(value.wrapping_sub(period.value));
        period.value = value;
    }

    /// The sum of the risks of a run in period `t`.
    #[inline]
    fn sum_of(&mut self, run: Run, t: usize) -> i64 {
        if run.meets(t) {
            self.rows.piece(run, t).sum
        } else {
            0
        }
    }

    /// By how much a change raises the total of period `t`.
    #[inline]
    fn total_rise(&mut self, change: &Change, t: usize) -> i64 {
        let first = self
            .sum_of(change.come, t)
            .wrapping_sub(self.sum_of(change.gone, t));
        let second = self
            .sum_of(change.second_come, t)
            .wrapping_sub(self.sum_of(change.second_gone, t));
        first.wrapping_add(second)
    }

    /// Notes the plan, where its score is below that of the best one.
    #[inline]
    pub(crate) fn note_best(&mut self) {
        if self.score < self.best_score && self.best.len() == self.starts.len() {
            self.best_score = self.score;
            self.best.copy_from_slice(&self.starts);
        }
    }
}
