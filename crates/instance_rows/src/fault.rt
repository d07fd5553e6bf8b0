//! Why the rows of a file define no instance.

use std::alloc::{AllocError, AllocFailed};
use thiserror::Error;

/// A fault across a file: each value has the right shape, but not all of them fit together. Periods and starts count
/// from 1.
#[derive(Debug, Drop, PartialEq, Eq, Error)]
pub enum CrossFault {
    /// There isn't one number of scenarios for each period.
    #[error("the list of scenario numbers hasn't one element per period")]
    ScenarioList,
    /// There isn't one upper and one lower limit of the resource for each period.
    #[error("a band of {0} hasn't one limit per period")]
    BandLength(String),
    /// `tmax` of the intervention is outside 1 to the number of periods.
    #[error("tmax of {0} is no period")]
    BadTmax(String),
    /// The intervention has fewer than `tmax` durations.
    #[error("{0} has fewer than tmax durations")]
    NoDelta(String),
    /// The name is that of no resource in a workload, or of no intervention or season in an exclusion.
    #[error("nothing has the name {0}")]
    Unknown(String),
    /// The intervention has no list of risks in a period of an allowed run.
    #[error("{intervention} has no risks in period {period} at start {start}")]
    NoRisk {
        intervention: String,
        period: u32,
        start: u32,
    },
    /// A list of risks hasn't as many numbers as the period has scenarios.
    #[error("{intervention} has too few or too many risks in period {period} at start {start}")]
    ScenarioCount {
        intervention: String,
        period: u32,
        start: u32,
    },
}

/// Why the rows of a file define no instance.
#[derive(Debug, Drop, PartialEq, Eq, Error)]
pub enum RowsFault {
    /// The first fault across the file.
    #[error("{0}")]
    Across(CrossFault),
    #[error("out of memory")]
    Memory,
}

impl From<AllocError> for RowsFault {
    ghost use Rattle.std.specs.Prelude.{◌≡◌};
    ghost use Rattle.instance_rows.specs.declared.fault.RowsFault.TheVariants.{Memory};

    ghost from_gives = { λ _ e. e ≡ Memory };

    fn from(_error: AllocError) -> RowsFault {
        RowsFault::Memory
    }
}

impl<T: Drop> From<AllocFailed<T>> for RowsFault {
    ghost use Rattle.std.specs.Prelude.{◌≡◌};
    ghost use Rattle.instance_rows.specs.declared.fault.RowsFault.TheVariants.{Memory};

    ghost from_gives = { λ _ e. e ≡ Memory };

    fn from(_error: AllocFailed<T>) -> RowsFault {
        RowsFault::Memory
    }
}
