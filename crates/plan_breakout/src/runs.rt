//! The runs of all allowed starts, and their workloads, on arrays.
ghost use Rattle.std.specs.Prelude.{◌<◌, length, IsTrue};
ghost use Rattle.instance_model.specs.Tables.{is_allowed};

use crate::arrays::{NOWHERE, between, entry};
use crate::bands::coarse;
use duration_calendar::run;
use instance_model::{Instance, LoadCell};
use std::alloc::{AllocError, Global};

/// An amount on the band at a place.
#[derive(Clone, Copy)]
pub(crate) struct Work {
    pub(crate) place: usize,
    pub(crate) amount: i64,
}

/// An intervention in progress from period `from` to `past - 1`, and where its workloads begin.
#[derive(Clone, Copy)]
pub(crate) struct Run {
    pub(crate) i: usize,
    pub(crate) from: u32,
    pub(crate) past: u32,
    first_work: usize,
}

/// Runs by intervention, then start; behind them one that isn't.
#[derive(Drop)]
pub(crate) struct Runs {
    runs: Vec<Run>,
    /// By intervention, and one more: the number of its first run.
    firsts: Vec<usize>,
    /// By run.
    works: Vec<Work>,
    /// Whether one of them is below 0.
    negative: bool,
}

/// The place behind the cells from `from` on that have this start or one before.
fn past_start(cells: &[LoadCell], from: usize, s: u32) -> usize {
    for k in from..cells.len() {
        if cells[k].start > s {
            return k;
        }
    }
    cells.len()
}

/// The place of the band that a workload loads: they stand by resource, then period.
fn place_of(periods: u32, cell: &LoadCell) -> usize {
    (cell.resource as usize)
        .wrapping_mul(periods as usize)
        .wrapping_add(cell.period as usize)
        .wrapping_sub(1)
}

impl Run {
    /// No run.
    #[inline]
    fn none() -> Run {
        Run {
            i: NOWHERE,
            from: 0,
            past: 0,
            first_work: 0,
        }
    }
}

impl Runs {
    pub(crate) fn make(alloc: Global, inst: &Instance) -> Result<Runs, AllocError> {
        let mut runs = Runs {
            runs: Vec::new(alloc),
            firsts: Vec::new(alloc),
            works: Vec::new(alloc),
            negative: false,
        };
        for i in 0..inst.interventions() {
            runs.firsts.push(runs.runs.len())?;
            runs.add_all(inst, i)?;
        }
        runs.firsts.push(runs.runs.len())?;
        let end = Run {
            first_work: runs.works.len(),
            ..Run::none()
        };
        runs.runs.push(end)?;
        Ok(runs)
    }

    /// Adds the runs of intervention `i`.
    fn add_all(&mut self, inst: &Instance, i: u32) -> Result<(), AllocError>
        requires { i < length inst.now.names }
    {
        let cells = inst.workloads(i);
        let mut first = 0;
        for s in 1..inst.periods() + 1 {
            let past = past_start(cells, first, s);
            if inst.allowed(i, s) {
                self.add_run(inst, i, s)?;
                self.add_works(inst.periods(), between(cells, first, past))?;
            }
            first = past;
        }
        Ok(())
    }

    /// Adds a run that is allowed.
    fn add_run(&mut self, inst: &Instance, i: u32, s: u32) -> Result<(), AllocError>
        requires number { i < length inst.now.names }
        requires allowed { IsTrue (is_allowed inst.now i s) }
    {
        let window = run(inst, i, s);
        self.runs.push(Run {
            i: i as usize,
            from: window.from,
            past: window.past,
            first_work: self.works.len(),
        })?;
        Ok(())
    }

    /// Adds the workloads of the last run.
    fn add_works(&mut self, periods: u32, cells: &[LoadCell]) -> Result<(), AllocError> {
        for cell in cells {
            let amount = coarse(cell.load.count());
            self.negative = self.negative || amount < 0;
            self.works.push(Work {
                place: place_of(periods, cell),
                amount,
            })?;
        }
        Ok(())
    }

    /// How many runs there are.
    pub(crate) fn count(&self) -> usize {
        self.runs.len().saturating_sub(1)
    }

    /// How many workloads all runs have.
    pub(crate) fn works_count(&self) -> usize {
        self.works.len()
    }

    /// Whether a workload is below 0.
    #[inline]
    pub(crate) fn has_negative(&self) -> bool {
        self.negative
    }

    /// The number of the first run of an intervention; that of the next one is behind its last run.
    #[inline]
    pub(crate) fn first(&self, i: usize) -> usize {
        entry(&self.firsts, i)
    }

    /// The run of this number.
    #[inline]
    pub(crate) fn at(&self, number: usize) -> Run {
        match self.runs.get(number) {
            Some(run) => *run,
            None => Run::none(),
        }
    }

    /// The workloads of the run of this number.
    #[inline]
    pub(crate) fn works(&self, number: usize) -> &[Work] {
        let from = self.at(number).first_work;
        let past = self.at(number.wrapping_add(1)).first_work;
        between(&self.works, from, past)
    }

    /// The number of the run of an intervention that begins in period `s`.
    pub(crate) fn find(&self, i: usize, s: u32) -> usize {
        let first = self.first(i);
        for number in first..self.first(i.wrapping_add(1)) {
            if self.at(number).from == s {
                return number;
            }
        }
        first
    }
}
