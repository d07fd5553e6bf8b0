//! Why a file is no instance.
ghost use Rattle.std.specs.Prelude.{◌≡◌};
ghost use Rattle.instance_read.specs.declared.fault.InstanceFault.TheVariants as instance_faults;
ghost use Rattle.instance_read.specs.declared.fault.StreamFault.TheVariants as stream_faults;

use instance_shape::{Known, Which};
use json_grammar::Text;
use plan_desk::Failed;
use std::alloc::AllocError;
use thiserror::Error;

/// Why bytes are no instance. Offsets count bytes from 0.
///
/// A fault of the text (`Syntax`, `TooDeep`) wins over one of the shape (`Double` to `Limit`), and that over one across
/// the file. Of two faults of the shape the one of lesser place counts, at one place the one that stands earlier here;
/// across the file the first in the order of the format.
#[derive(Debug, Drop, Error)]
pub enum InstanceFault {
    /// The bytes are no JSON text; their longest beginning that begins one has the length `at`.
    #[error("no JSON text from byte {at} on")]
    Syntax {
        at: u64,
    },
    /// The bracket or brace at `at` opens a 17th level.
    #[error("nested too deep at byte {at}")]
    TooDeep {
        at: u64,
    },
    /// The key at `at` equals an earlier one of its object.
    #[error("the key at byte {at} stands there again")]
    Double {
        at: u64,
    },
    /// The text at `at` has to be a name, and isn't.
    #[error("no name at byte {at}")]
    BadName {
        at: u64,
    },
    /// The object that closes at `at` lacks a required key.
    #[error("a required key is missing before byte {at}")]
    Missing {
        at: u64,
        key: Known,
    },
    /// What stands at `at` hasn't the shape that is due there.
    #[error("not the shape that is due at byte {at}")]
    Shape {
        at: u64,
    },
    /// The number at `at`, rounded to 10^-12, has 10^8 or more in size.
    #[error("too large a number at byte {at}")]
    TooLarge {
        at: u64,
    },
    /// What stands at `at` is past a limit.
    #[error("past a limit at byte {at}")]
    Limit {
        at: u64,
        which: Which,
    },
    /// `Scenarios_number` hasn't one element for each period.
    #[error("not one number of scenarios for each period")]
    ScenarioList,
    /// A band of the resource hasn't one limit for each period.
    #[error("a band has not one limit for each period")]
    BandLength {
        resource: Text,
    },
    /// `tmax` of the intervention is outside the periods.
    #[error("a tmax is outside the periods")]
    BadTmax {
        intervention: Text,
    },
    /// `Delta` of the intervention has fewer than `tmax` durations.
    #[error("a list of durations is too short")]
    NoDelta {
        intervention: Text,
    },
    /// The name is none of the file's.
    #[error("a name is not one of the file's")]
    Unknown {
        name: Text,
    },
    /// There is no list of risks in this period at this allowed start.
    #[error("no risks in period {period} at start {start}")]
    NoRisk {
        intervention: Text,
        period: u32,
        start: u32,
    },
    /// The list of risks there hasn't one number for each scenario of the period.
    #[error("not one risk for each scenario in period {period} at start {start}")]
    ScenarioCount {
        intervention: Text,
        period: u32,
        start: u32,
    },
    /// Memory ran out, which says nothing about the file.
    #[error("out of memory")]
    Memory,
}

impl From<AllocError> for InstanceFault {
    ghost from_gives = { λ _ fault. fault ≡ instance_faults.Memory };

    fn from(_: AllocError) -> InstanceFault {
        InstanceFault::Memory
    }
}

/// Why no instance was read from a device.
#[derive(Debug, Drop, Error)]
pub enum StreamFault {
    /// The file could not be taken in or read.
    #[error("the file could not be read")]
    Failed,
    /// The file has more bytes than its limit.
    #[error("the file is too long")]
    TooLong,
    /// The bytes of the file are no instance; never `Memory`.
    #[error("{0}")]
    Text(InstanceFault),
    /// Memory ran out, which says nothing about the file.
    #[error("out of memory")]
    Memory,
}

impl From<AllocError> for StreamFault {
    ghost from_gives = { λ _ fault. fault ≡ stream_faults.Memory };

    fn from(_: AllocError) -> StreamFault {
        StreamFault::Memory
    }
}

impl From<Failed> for StreamFault {
    ghost from_gives = { λ _ fault. fault ≡ stream_faults.Failed };

    fn from(_: Failed) -> StreamFault {
        StreamFault::Failed
    }
}
