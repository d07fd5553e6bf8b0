//! The faults of scenarios, resources, starts and workloads.

ghost use Rattle.std.specs.Prelude.{◌≡◌, ◌≤◌, OnOk, length, map, string_bytes, vec_len};
ghost use Rattle.instance_model.specs.Rules.{or_else};
ghost use Rattle.instance_shape.specs.CrossFaults.{first_in};
ghost use Rattle.instance_rows.specs.Answers.{Tells};
ghost use Rattle.instance_rows.specs.RowFaults as fault;
ghost use Rattle.instance_rows.specs.Sound.{AreSound};
ghost use Rattle.instance_rows.specs.Views.{rows_view, band_view, work_view, workload_view};

use crate::fault::{CrossFault, RowsFault};
use crate::names::number_of;
use crate::rows::{Bands, FileRows, Work, Workload};
use ordered_keys::TextSet;
use std::alloc::Global;

/// There is one number of scenarios for each period.
pub fn check_scenarios(rows: &FileRows) -> Result<(), RowsFault>
    ensures told { Tells (fault.scenarios_fault (rows_view rows.now)) result }
    ensures each { OnOk result (vec_len rows.now.scenarios ≡ rows.now.periods) }
{
    if rows.scenarios.len() == rows.periods as usize {
        Ok(())
    } else {
        Err(RowsFault::Across(CrossFault::ScenarioList))
    }
}

/// Each resource has as many upper and lower limits as there are periods.
pub fn check_bands(alloc: Global, rows: &FileRows) -> Result<(), RowsFault>
    requires { AreSound (rows_view rows.now) }
    ensures { Tells (fault.bands_fault (rows_view rows.now)) result }
{
    let names = rows.resources.as_slice();
    for i in 0..rows.bands.len() {
        check_band(alloc, rows.periods, names[i].as_str(), &rows.bands[i])?;
    }
    Ok(())
}

/// A resource has as many upper and lower limits as there are periods.
fn check_band(alloc: Global, periods: u32, name: &str, bands: &Bands) -> Result<(), RowsFault>
    ensures { Tells (fault.band_fault periods name.now (band_view bands.now)) result }
{
    let count = periods as usize;
    if bands.most.len() == count && bands.least.len() == count {
        Ok(())
    } else {
        Err(RowsFault::Across(CrossFault::BandLength(name.to_string(alloc)?)))
    }
}

/// `tmax` of an intervention is a period, and there are as many durations.
pub fn check_starts(alloc: Global, periods: u32, name: &str, work: &Work) -> Result<(), RowsFault>
    ensures told { Tells (or_else (fault.tmax_fault periods name.now (work_view work.now))
        (fault.delta_fault name.now (work_view work.now))) result }
    ensures starts { OnOk result (work.now.tmax ≤ periods) }
    ensures listed { OnOk result (work.now.tmax ≤ vec_len work.now.durations) }
{
    if work.tmax == 0 || work.tmax > periods {
        return Err(RowsFault::Across(CrossFault::BadTmax(name.to_string(alloc)?)));
    }
    if work.durations.len() < work.tmax as usize {
        return Err(RowsFault::Across(CrossFault::NoDelta(name.to_string(alloc)?)));
    }
    Ok(())
}

/// Each workload names a resource.
pub fn check_workloads(
    alloc: Global,
    resources: &TextSet,
    workloads: &[Workload],
) -> Result<(), RowsFault>
    requires { length resources.now.texts.keys ≤ 1024 }
    ensures { Tells (first_in (fault.workload_fault (map string_bytes resources.now.texts.keys))
        (map workload_view workloads.now)) result }
{
    for workload in workloads {
        number_of(alloc, resources, workload.resource.as_str())?;
    }
    Ok(())
}
