//! The runs of all allowed starts.

ghost use Rattle.std.specs.Prelude.{◌<◌, ◌≤◌, length, IsTrue};
ghost use Rattle.instance_model.specs.Tables.{is_allowed};

use crate::run::{Run, low};
use duration_calendar::run;
use instance_model::{Instance, LoadCell};
use std::alloc::{AllocError, Global};

/// By intervention, then period: the run from there on, if it is allowed; and the allowed starts of each intervention.
#[derive(Drop)]
pub(crate) struct Runs {
    periods: usize,
    table: Vec<Run>,
    starts: Vec<u32>,
    /// By intervention, and one more: how many allowed starts the interventions before have.
    first_starts: Vec<usize>,
    /// How many pieces all runs have.
    pieces: usize,
}

/// The place behind the cells from `from` on that have this start or one before.
fn past_cells(cells: &[LoadCell], from: usize, s: u32) -> usize {
    for k in from..cells.len() {
        if cells[k].start > s {
            return k;
        }
    }
    cells.len()
}

impl Runs {
    pub(crate) fn make(alloc: Global, inst: &Instance) -> Result<Runs, AllocError> {
        let mut runs = Runs {
            periods: inst.periods() as usize,
            table: Vec::new(alloc),
            starts: Vec::new(alloc),
            first_starts: Vec::new(alloc),
            pieces: 0,
        };
        let count = inst.interventions();
        runs.table
            .reserve((count as usize).wrapping_mul(inst.periods() as usize))?;
        for i in 0..count {
            runs.first_starts.push(runs.starts.len())?;
            runs.add_work(inst, i)?;
        }
        runs.first_starts.push(runs.starts.len())?;
        Ok(runs)
    }

    /// Adds the runs of the next intervention.
    fn add_work(&mut self, inst: &Instance, i: u32) -> Result<(), AllocError>
        requires { i < length inst.now.names }
    {
        let mut first_cell = 0;
        for s in 1..inst.periods() + 1 {
            let past_cells = past_cells(inst.workloads(i), first_cell, s);
            if inst.allowed(i, s) {
                self.add_run(inst, i, s, first_cell, past_cells)?;
            } else {
                self.table.push(Run::none())?;
            }
            first_cell = past_cells;
        }
        Ok(())
    }

    /// Adds a run that is allowed.
    fn add_run(
        &mut self,
        inst: &Instance,
        i: u32,
        s: u32,
        first_cell: usize,
        past_cells: usize,
    ) -> Result<(), AllocError>
        requires number { i < length inst.now.names }
        requires allowed { IsTrue (is_allowed inst.now i s) }
    {
        let window = run(inst, i, s);
        self.starts.push(s)?;
        self.table.push(Run {
            work: i,
            from: window.from,
            past: window.past,
            piece: low(self.pieces),
            first_cell: low(first_cell),
            past_cells: low(past_cells),
        })?;
        let duration = window.past.saturating_sub(window.from);
        self.pieces = self.pieces.wrapping_add(duration as usize);
        Ok(())
    }

    pub(crate) fn pieces(&self) -> usize {
        self.pieces
    }

    /// The run of an intervention from period `s` on, if it is allowed.
    #[inline]
    pub(crate) fn at(&self, work: usize, s: usize) -> Option<Run> {
        let day = s.wrapping_sub(1);
        if day >= self.periods {
            return None;
        }
        let place = work.wrapping_mul(self.periods).wrapping_add(day);
        match self.table.get(place) {
            Some(run) if run.past > 0 => Some(*run),
            _ => None,
        }
    }

    /// How many allowed starts the interventions before have.
    #[inline]
    fn first_start(&self, work: usize) -> usize {
        match self.first_starts.get(work) {
            Some(first) => *first,
            None => 0,
        }
    }

    /// How many allowed starts an intervention has.
    #[inline]
    pub(crate) fn count(&self, work: usize) -> usize {
        self.first_start(work.wrapping_add(1))
            .saturating_sub(self.first_start(work))
    }

    /// Allowed start `k` of an intervention.
    #[inline]
    pub(crate) fn start(&self, work: usize, k: usize) -> usize {
        match self.starts.get(self.first_start(work).wrapping_add(k)) {
            Some(start) => *start as usize,
            None => 0,
        }
    }
}
