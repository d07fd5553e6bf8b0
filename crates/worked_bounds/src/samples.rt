//! Instances that bounds of both kinds are worked on, and how a text is read as one.
//!
//! Each text stands in a function of its own: a proof goes through a literal wherever it is written.

use fixed_num::Fixed;
use instance_model::{Instance, Limits};
use instance_read::{InstanceFault, read_instance};
use std::alloc::Global;

/// One intervention, whose load of 5 is due in period 1; to start in period 2 costs nothing. The mean alone costs.
pub fn floor() -> &'static str {
    r#"{"Resources":{"c":{"max":[9,9],"min":[5,0]}},"Seasons":{},
"Interventions":{
"A":{"tmax":2,"Delta":[1,1],
"workload":{"c":{"1":{"1":5},"2":{"2":5}}},
"risk":{"1":{"1":[3]},"2":{"2":[0]}}}},
"Exclusions":{},"T":2,"Scenarios_number":[1,1],
"Quantile":1,"Alpha":1}"#
}

/// One intervention with one start, and two scenarios. Half the mean costs, and
/// half of what the greater risk is above it.
pub fn skewed() -> &'static str {
    r#"{"Resources":{},"Seasons":{},
"Interventions":{"A":{"tmax":1,"Delta":[1],"workload":{},
"risk":{"1":{"1":[1,3]}}}},
"Exclusions":{},"T":1,"Scenarios_number":[2],
"Quantile":0.95,"Alpha":0.5}"#
}

/// The instance of a text, with no slack.
pub fn instance(alloc: Global, text: &str) -> Result<Instance, InstanceFault> {
    let limits = Limits::standard();
    read_instance(alloc, &limits, Fixed::zero(), text.as_bytes())
}
