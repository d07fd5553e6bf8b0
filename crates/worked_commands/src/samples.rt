//! Files that more than one command is run over, and what a desk shows behind a run.

use plan_desk::MemDesk;
use std::alloc::{AllocError, Global};

/// Two interventions that are too much together, and one scenario a period.
pub const BANDED: &str = r#"{"Resources":{"c":{"max":[10,10],"min":[0,0]}},"Seasons":{},
"Interventions":{
"I1":{"tmax":2,"Delta":[1,1],
"workload":{"c":{"1":{"1":6},"2":{"2":6}}},
"risk":{"1":{"1":[0]},"2":{"2":[4]}}},
"I2":{"tmax":2,"Delta":[1,1],
"workload":{"c":{"1":{"1":6},"2":{"2":6}}},
"risk":{"1":{"1":[0]},"2":{"2":[2]}}}},
"Exclusions":{},"T":2,"Scenarios_number":[1,1],
"Quantile":1,"Alpha":1}"#;

/// An intervention without an allowed start.
pub const STARTLESS: &str = r#"{"Resources":{},"Seasons":{},
"Interventions":{"I1":{"tmax":1,"Delta":[3],"workload":{},"risk":{}}},
"Exclusions":{},"T":2,"Scenarios_number":[1,1],
"Quantile":1,"Alpha":1}"#;

/// No intervention at all.
pub const EMPTY: &str = r#"{"Resources":{},"Seasons":{},"Interventions":{},
"Exclusions":{},"T":1,"Scenarios_number":[1],"Quantile":1,"Alpha":1}"#;

/// A desk with an instance as the file I, and another file of this name.
pub fn desk(alloc: Global, instance: &str, name: &str, text: &str) -> Result<MemDesk, AllocError> {
    let mut desk = MemDesk::make(alloc);
    desk.put_file("I", instance.as_bytes())?;
    desk.put_file(name, text.as_bytes())?;
    Ok(desk)
}

/// Whether the file of this name is there and holds just these bytes.
pub fn holds(desk: &MemDesk, name: &str, bytes: &[u8]) -> bool {
    match desk.file(name) {
        Some(held) => held == bytes,
        None => false,
    }
}
