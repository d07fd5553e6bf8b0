//! The workloads of all starts in one list, which is walked twice in each round of the first phase.
ghost use Rattle.std.specs.Prelude.{◌<◌, length, All, IfOk, OnOk, IsTrue};
ghost use Rattle.instance_model.specs.Tables.{is_allowed};
ghost use Rattle.lagrange_bound.specs.Changes.{IsBandPlace};
ghost use Rattle.price_ladder.specs.Phase.{start_count, band_count, IsWork, AreWorks};

use crate::band::{Band, coarse};
use crate::start_place::{band_place, start_place};
use instance_model::{Instance, LoadCell};
use std::alloc::{AllocError, Global};

/// What a start adds to the load of a band, in counts of 10^-6. Start and band are given by their places.
#[derive(Clone, Copy)]
pub(crate) struct Work {
    start: usize,
    band: usize,
    load: i64,
}

impl Work {
    fn new(inst: &Instance, i: u32, cell: &LoadCell) -> Work
        requires number { i < length inst.now.names }
        requires allowed { IsTrue (is_allowed inst.now i cell.now.start) }
        requires place { IsBandPlace inst.now cell.now.resource cell.now.period }
        ensures { IsWork (start_count inst.now) (band_count inst.now) result }
    {
        Work {
            start: start_place(inst, i, cell.start),
            band: band_place(inst, cell.resource, cell.period),
            load: coarse(cell.load.count()),
        }
    }
}

/// The workloads of intervention `i`, behind those that there are.
fn push_works(inst: &Instance, i: u32, works: &mut Vec<Work>) -> Result<(), AllocError>
    requires number { i < length inst.now.names }
    requires works { AreWorks inst.now works.old.items }
    ensures { OnOk result (AreWorks inst.now works.new.items) }
{
    for cell in inst.workloads(i) {
        works.push(Work::new(inst, i, cell))?;
    }
    Ok(())
}

/// The workloads of all starts.
pub(crate) fn all_works(alloc: Global, inst: &Instance) -> Result<Vec<Work>, AllocError>
    ensures { IfOk result (λ works. AreWorks inst.now works.items) }
{
    let mut works = Vec::new(alloc);
    for i in 0..inst.interventions() {
        push_works(inst, i, &mut works)?;
    }
    Ok(works)
}

/// The mean load, at least 1, in whole units.
pub(crate) fn mean_load(works: &[Work]) -> i64 {
    let mut sum: i64 = 0;
    let mut count: i64 = 1;
    for work in works {
        sum = sum.saturating_add(work.load);
        count = count.saturating_add(1_000_000);
    }
    (sum / count.max(1)).max(1)
}

/// Adds what the prices of the bands make of the workloads to the numbers of the starts.
pub(crate) fn add_rates(entries: &mut [i64], bands: &[Band], works: &[Work])
    requires { All (IsWork (length entries.old) (length bands.now)) works.now }
{
    for work in works {
        let more = bands[work.band].rate().saturating_mul(work.load);
        let entry = &mut entries[work.start];
        *entry = entry.saturating_add(more);
    }
}

/// Computes the loads of the bands by the starts that are chosen.
pub(crate) fn note_loads(bands: &mut [Band], chosen: &[bool], works: &[Work])
    requires { All (IsWork (length chosen.now) (length bands.old)) works.now }
{
    for band in bands.iter_mut() {
        band.clear_load();
    }
    for work in works {
        if chosen[work.start] {
            bands[work.band].add_load(work.load);
        }
    }
}
