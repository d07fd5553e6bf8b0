//! Rows that are empty.

ghost use Rattle.std.specs.Prelude.{◌≡◌};
ghost use Rattle.instance_rows.specs.RowFaults as none;
ghost use Rattle.instance_rows.specs.Views.{band_view, workload_view, work_view, rows_view};
ghost use Rattle.instance_read.specs.Keeping as spec;

use instance_model::RiskLists;
use instance_rows::{Bands, FileRows, Work, Workload};
use ordered_keys::TextSet;
use std::alloc::Global;

/// A resource without limits.
pub fn no_bands(alloc: Global) -> Bands
    ensures { band_view result ≡ none.no_band }
{
    Bands {
        most: Vec::new(alloc),
        least: Vec::new(alloc),
    }
}

/// A workload without a name.
pub fn no_workload(alloc: Global) -> Workload
    ensures { workload_view result ≡ spec.no_workload }
{
    Workload {
        resource: String::new(alloc),
        loads: Vec::new(alloc),
    }
}

/// An intervention without starts.
pub fn no_work(alloc: Global) -> Work
    ensures { work_view result ≡ none.no_work }
{
    Work {
        tmax: 0,
        durations: Vec::new(alloc),
        workloads: Vec::new(alloc),
        risks: RiskLists::new(alloc),
    }
}

/// The rows of an empty file.
pub fn no_rows(alloc: Global) -> FileRows
    ensures { rows_view result ≡ spec.rows_kept spec.nothing_kept }
{
    FileRows {
        periods: 0,
        alpha: 0,
        quantile: 0,
        scenarios: Vec::new(alloc),
        resources: TextSet::new(alloc),
        bands: Vec::new(alloc),
        seasons: TextSet::new(alloc),
        season_periods: Vec::new(alloc),
        interventions: TextSet::new(alloc),
        works: Vec::new(alloc),
        exclusions: TextSet::new(alloc),
        exclusion_words: Vec::new(alloc),
        rounded: 0,
    }
}
