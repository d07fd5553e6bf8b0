//! Workloads of runs: copied, 16 bytes each, as far as there is room, and read from the instance elsewhere.

use crate::run::{Run, low};
use instance_model::{Instance, LoadCell};
use std::alloc::{AllocError, Global};

/// The most workloads that are copied.
pub(crate) const MOST_WORKS: usize = 786_432;

/// A workload, and the place of its band.
#[derive(Clone, Copy)]
struct Work {
    place: u32,
    amount: i64,
}

/// The workloads of an intervention: where the copied ones begin, or all of them in the instance.
#[derive(Clone, Copy)]
struct WorkList<'a> {
    first: usize,
    cells: &'a [LoadCell],
}

/// The workloads by intervention.
#[derive(Drop)]
pub(crate) struct Works<'a> {
    resources: usize,
    copied: Vec<Work>,
    lists: Vec<WorkList<'a>>,
}

/// Workloads of a run: one list of the two is empty.
#[derive(Clone, Copy)]
pub(crate) struct Cells<'a> {
    resources: usize,
    copied: &'a [Work],
    cells: &'a [LoadCell],
}

/// The place of a workload's band, which stand by period, then resource.
#[inline]
fn place_of(resources: usize, cell: &LoadCell) -> usize {
    (cell.period as usize)
        .wrapping_sub(1)
        .wrapping_mul(resources)
        .wrapping_add(cell.resource as usize)
}

/// How many workloads an instance has.
fn count_of(inst: &Instance) -> usize {
    let mut count: usize = 0;
    for i in 0..inst.interventions() {
        count = count.saturating_add(inst.workloads(i).len());
    }
    count
}

impl<'a> Cells<'a> {
    /// How many there are.
    #[inline]
    pub(crate) fn count(self) -> usize {
        self.copied.len().wrapping_add(self.cells.len())
    }

    /// The place of the band of workload `k`, and the workload.
    #[inline]
    pub(crate) fn at(self, k: usize) -> (usize, i128) {
        if let Some(work) = self.copied.get(k) {
            return (work.place as usize, i128::from(work.amount));
        }
        match self.cells.get(k) {
            Some(cell) => (place_of(self.resources, cell), cell.load.count()),
            None => (usize::MAX, 0),
        }
    }
}

impl<'a> Works<'a> {
    pub(crate) fn make(alloc: Global, inst: &'a Instance) -> Result<Works<'a>, AllocError> {
        let mut works = Works {
            resources: inst.resources() as usize,
            copied: Vec::new(alloc),
            lists: Vec::new(alloc),
        };
        works.copied.reserve(count_of(inst).min(MOST_WORKS))?;
        for i in 0..inst.interventions() {
            works.add_list(inst.workloads(i))?;
        }
        Ok(works)
    }

    /// Adds the workloads of the next intervention.
    fn add_list(&mut self, cells: &'a [LoadCell]) -> Result<(), AllocError> {
        let first = self.copied.len();
        if self.copy_all(cells)? {
            self.lists.push(WorkList { first, cells: &[] })?;
        } else {
            self.copied.truncate(first);
            self.lists.push(WorkList { first: 0, cells })?;
        }
        Ok(())
    }

    /// Copies workloads, where there is room for all, and all have 8 bytes.
    fn copy_all(&mut self, cells: &[LoadCell]) -> Result<bool, AllocError> {
        if cells.len() > MOST_WORKS.saturating_sub(self.copied.len()) {
            return Ok(false);
        }
        for cell in cells {
            match i64::try_from(cell.load.count()) {
                Ok(amount) => self.copied.push(Work {
                    place: low(place_of(self.resources, cell)),
                    amount,
                })?,
                Err(_) => return Ok(false),
            }
        }
        Ok(true)
    }

    /// The workloads of a run.
    #[inline]
    pub(crate) fn of(&self, run: Run) -> Cells<'_> {
        let resources = self.resources;
        let from = run.first_cell as usize;
        let past = run.past_cells as usize;
        let Some(list) = self.lists.get(run.work as usize) else {
            return Cells {
                resources,
                copied: &[],
                cells: &[],
            };
        };
        if list.cells.is_empty() {
            let first = list.first;
            let copied = between(
                self.copied.as_slice(),
                first.wrapping_add(from),
                first.wrapping_add(past),
            );
            return Cells {
                resources,
                copied,
                cells: &[],
            };
        }
        Cells {
            resources,
            copied: &[],
            cells: between(list.cells, from, past),
        }
    }
}

/// Some entries from a place to another, as far as they are there.
#[inline]
fn between<T>(entries: &[T], from: usize, past: usize) -> &[T] {
    let past = past.min(entries.len());
    let from = from.min(past);
    &entries[from..past]
}
