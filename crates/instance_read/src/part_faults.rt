//! The faults of the parts of a reading as faults of the file.

ghost use Rattle.std.specs.Prelude.{◌≡◌, Some};
ghost use Rattle.instance_rows.specs.Answers.{fault_view};
ghost use Rattle.instance_shape.specs.FileFaults.{shape, across};
ghost use Rattle.instance_read.specs.Faults.{fault_of};
ghost use Rattle.instance_read.specs.PartFaults as spec;

use crate::fault::{InstanceFault, StreamFault};
use instance_rows::{CrossFault, RowsFault};
use instance_shape::{Fault, Flaw};
use json_grammar::{Text, TextFault};

/// A fault of the text.
pub fn of_text(fault: TextFault) -> InstanceFault
    ensures { fault_of result ≡ spec.of_text fault }
{
    match fault {
        TextFault::Syntax { at } => InstanceFault::Syntax { at },
        TextFault::TooDeep { at } => InstanceFault::TooDeep { at },
        TextFault::Memory => InstanceFault::Memory,
    }
}

/// A fault of the shape.
pub fn of_shape(fault: Fault) -> InstanceFault
    ensures { fault_of result ≡ Some (shape fault) }
{
    let at = fault.at;
    match fault.flaw {
        Flaw::Double => InstanceFault::Double { at },
        Flaw::BadName => InstanceFault::BadName { at },
        Flaw::Missing(key) => InstanceFault::Missing { at, key },
        Flaw::Shape => InstanceFault::Shape { at },
        Flaw::TooLarge => InstanceFault::TooLarge { at },
        Flaw::Limit(which) => InstanceFault::Limit { at, which },
    }
}

/// A fault across the file.
fn of_cross(fault: CrossFault) -> InstanceFault
    ensures { fault_of result ≡ Some (across (fault_view fault)) }
{
    match fault {
        CrossFault::ScenarioList => InstanceFault::ScenarioList,
        CrossFault::BandLength(name) => InstanceFault::BandLength {
            resource: Text::of_string(name),
        },
        CrossFault::BadTmax(name) => InstanceFault::BadTmax {
            intervention: Text::of_string(name),
        },
        CrossFault::NoDelta(name) => InstanceFault::NoDelta {
            intervention: Text::of_string(name),
        },
        CrossFault::Unknown(name) => InstanceFault::Unknown {
            name: Text::of_string(name),
        },
        CrossFault::NoRisk {
            intervention,
            period,
            start,
        } => InstanceFault::NoRisk {
            intervention: Text::of_string(intervention),
            period,
            start,
        },
        CrossFault::ScenarioCount {
            intervention,
            period,
            start,
        } => InstanceFault::ScenarioCount {
            intervention: Text::of_string(intervention),
            period,
            start,
        },
    }
}

/// A fault of the rows.
pub fn of_rows(fault: RowsFault) -> InstanceFault
    ensures { fault_of result ≡ spec.of_rows fault }
{
    match fault {
        RowsFault::Across(fault) => of_cross(fault),
        RowsFault::Memory => InstanceFault::Memory,
    }
}

/// A fault of the bytes that were read of a device, or want of memory.
pub fn of_bytes(fault: InstanceFault) -> StreamFault
    ensures { spec.IsOfBytes fault result }
{
    match fault {
        InstanceFault::Memory => StreamFault::Memory,
        fault => StreamFault::Text(fault),
    }
}
