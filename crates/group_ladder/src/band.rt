//! The limits of resources with their prices, while the rounds move these, and the workloads of all starts.
//!
//! Amounts stop at the ends of their type: nothing rests on them.
ghost use Rattle.std.specs.Prelude.{◌≡◌, ◌*◌, ◌<◌, ◌≤◌, length, All, IfOk, OnOk, IsTrue};
ghost use Rattle.instance_model.specs.Tables.{is_allowed};
ghost use Rattle.lagrange_bound.specs.Changes.{IsBandPlace};
ghost use Rattle.refined_prices.specs.tables.CapTables.{IsCapTable};
ghost use Rattle.group_ladder.specs.Search.{band_count, IsStart, AreStarts, IsRange, IsWork, AreWorks};

use crate::number::{Number, Pace};
use crate::place::band_place;
use crate::scales::Scales;
use crate::start::{Range, Start};
use crate::units::{Mean, Units};
use instance_model::{Instance, LoadCell};
use refined_prices::CapTable;
use std::alloc::{AllocError, Global};

/// The limits of a resource in a period, the prices on them, and by the starts of least price its load, and as much of
/// that as counts for the lower limit.
#[derive(Clone, Copy)]
pub(crate) struct Band {
    most: i64,
    least: i64,
    upper: Number,
    lower: Number,
    load: i64,
    counted: i64,
}

impl Band {
    fn new(inst: &Instance, units: Units, c: u32, t: u32) -> Band
        requires { IsBandPlace inst.now c t }
    {
        Band {
            most: units.load(inst.upper(c, t)),
            least: units.load(inst.lower(c, t)),
            upper: Number::new(0),
            lower: Number::new(0),
            load: 0,
            counted: 0,
        }
    }

    /// What the prices add for a workload.
    fn rate(self, work: Work) -> i64 {
        let more = self.upper.value().saturating_mul(work.load);
        more.saturating_sub(self.lower.value().saturating_mul(work.counted))
    }

    /// What they add whatever the load is.
    fn fixed(self) -> i64 {
        let least = self.lower.value().saturating_mul(self.least);
        least.saturating_sub(self.upper.value().saturating_mul(self.most))
    }

    /// The best prices on the upper and the lower limit.
    pub(crate) fn best(self) -> (i64, i64) {
        (self.upper.best(), self.lower.best())
    }

    fn clear_load(&mut self) {
        self.load = 0;
        self.counted = 0;
    }

    fn add_load(&mut self, work: Work) {
        self.load = self.load.saturating_add(work.load);
        self.counted = self.counted.saturating_add(work.counted);
    }

    /// Moves the prices by how far the load is outside its limits. One on a limit that no load can break stays 0.
    fn step(&mut self, scales: Scales, pace: Pace) {
        self.upper.pull(self.load.saturating_sub(self.most));
        self.upper.go_above_zero(scales.upper(), pace);
        if self.least > 0 {
            self.lower.pull(self.least.saturating_sub(self.counted));
            self.lower.go_above_zero(scales.lower(self.least), pace);
        }
    }

    fn keep(&mut self) {
        self.upper.keep();
        self.lower.keep();
    }
}

/// The bands with prices of 0, by resource, then period.
pub(crate) fn bands_of(
    alloc: Global,
    inst: &Instance,
    units: Units,
) -> Result<Vec<Band>, AllocError>
    ensures { IfOk result (λ bands. length bands.items ≡ length inst.now.resource_names * inst.now.periods) }
{
    let mut bands = Vec::new(alloc);
    for c in 0..inst.resources() {
        for t in 1..inst.periods() + 1 {
            bands.push(Band::new(inst, units, c, t))?;
        }
    }
    Ok(bands)
}

/// What the prices add whatever the loads are.
pub(crate) fn fixed_of_bands(bands: &[Band]) -> i64 {
    let mut sum: i64 = 0;
    for band in bands {
        sum = sum.saturating_add(band.fixed());
    }
    sum
}

/// Moves all prices.
pub(crate) fn step_bands(bands: &mut [Band], scales: Scales, pace: Pace) {
    for band in bands.iter_mut() {
        band.step(scales, pace);
    }
}

/// Notes that these are the best prices so far.
pub(crate) fn keep_bands(bands: &mut [Band]) {
    for band in bands.iter_mut() {
        band.keep();
    }
}

// ---- workloads

/// What a start adds to the load of a band, and as much of it as counts for the lower limit. Start and band are given
/// by their places.
#[derive(Clone, Copy)]
pub(crate) struct Work {
    start: usize,
    band: usize,
    load: i64,
    counted: i64,
}

impl Work {
    fn new(inst: &Instance, units: Units, caps: &CapTable, start: usize, cell: &LoadCell) -> Work
        requires caps { IsCapTable inst.now caps.now }
        requires place { IsBandPlace inst.now cell.now.resource cell.now.period }
        ensures start { result.start ≡ start }
        ensures band { result.band < length inst.now.resource_names * inst.now.periods }
    {
        let load = cell.load.count();
        let cap = caps.cap(inst, cell.resource, cell.period);
        Work {
            start,
            band: band_place(inst, cell.resource, cell.period),
            load: units.load(load),
            counted: units.load(load.min(cap)),
        }
    }
}

/// The first place from `from` to `past - 1` of a start that isn't before `s`, else `past`.
fn seek(starts: &[Start], from: usize, past: usize, s: u32) -> usize
    requires order { from ≤ past }
    requires within { past ≤ length starts.now }
    ensures from { from ≤ result }
    ensures past { result ≤ past }
{
    for k in from..past {
        if starts[k].begin >= s {
            return k;
        }
    }
    past
}

/// The workloads of the starts of intervention `i`, behind others.
fn push_works(
    inst: &Instance,
    units: Units,
    caps: &CapTable,
    i: u32,
    starts: &[Start],
    range: Range,
    works: &mut Vec<Work>,
) -> Result<(), AllocError>
    requires number { i < length inst.now.names }
    requires caps { IsCapTable inst.now caps.now }
    requires range { IsRange (length starts.now) range }
    requires works { AreWorks inst.now (length starts.now) works.old.items }
    ensures { OnOk result (AreWorks inst.now (length starts.now) works.new.items) }
{
    let mut at = range.from;
    for cell in inst.workloads(i) {
        at = seek(starts, at, range.past, cell.start);
        if at < range.past && starts[at].begin == cell.start {
            works.push(Work::new(inst, units, caps, at, cell))?;
        }
    }
    Ok(())
}

/// The workloads of all starts.
pub(crate) fn all_works(
    alloc: Global,
    inst: &Instance,
    units: Units,
    starts: &[Start],
    ranges: &[Range],
) -> Result<Vec<Work>, AllocError>
    requires each { length ranges.now ≡ length inst.now.names }
    requires ranges { All (IsRange (length starts.now)) ranges.now }
    ensures { IfOk result (λ works. AreWorks inst.now (length starts.now) works.items) }
{
    let caps = CapTable::make(alloc, inst)?;
    let mut works = Vec::new(alloc);
    for i in 0..inst.interventions() {
        push_works(
            inst,
            units,
            &caps,
            i,
            starts,
            ranges[i as usize],
            &mut works,
        )?;
    }
    Ok(works)
}

/// The mean load of all workloads of an instance.
pub(crate) fn mean_load(inst: &Instance) -> Mean {
    let mut mean = Mean::none();
    for i in 0..inst.interventions() {
        for cell in inst.workloads(i) {
            mean.add(cell.load.count());
        }
    }
    mean
}

/// The sum of all loads, in units.
pub(crate) fn sum_of_loads(works: &[Work]) -> i64 {
    let mut sum: i64 = 0;
    for work in works {
        sum = sum.saturating_add(work.load);
    }
    sum
}

/// Adds what the prices of the bands make of the workloads to the prices of the starts.
pub(crate) fn add_rates(entries: &mut [i64], bands: &[Band], works: &[Work])
    requires { All (IsWork (length entries.old) (length bands.now)) works.now }
{
    for work in works {
        let more = bands[work.band].rate(*work);
        let entry = &mut entries[work.start];
        *entry = entry.saturating_add(more);
    }
}

/// Computes the loads of the bands by the starts that are chosen.
pub(crate) fn note_loads(bands: &mut [Band], chosen: &[bool], works: &[Work])
    requires { All (IsWork (length chosen.now) (length bands.old)) works.now }
{
    for band in bands.iter_mut() {
        band.clear_load();
    }
    for work in works {
        if chosen[work.start] {
            bands[work.band].add_load(*work);
        }
    }
}
