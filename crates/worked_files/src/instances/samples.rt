//! Two files of one instance, and how a file is read here.

ghost use Rattle.std.specs.Prelude.{◌<◌};
ghost use Rattle.instance_shape.specs.Ranges.{AreStandard, IsSlack};

use fixed_num::Fixed;
use instance_model::{Instance, Limits};
use instance_read::{StreamFault, read_instance_from};
use plan_desk::{DeskCall, MemDesk};
use std::alloc::Global;

/// A file. Its lines begin at the bytes 0, 49, 74, 92, 121, 169, 239, 254, 269, 323, 340 and 374, and it has 433.
pub const GOOD: &str = r#"{"Resources":{"c":{"max":[3,3],"min":[0,0.25]}},
"Seasons":{"s":[2,"7"]},
"Interventions":{
"a":{"tmax":1,"Delta":[2,9],
"workload":{"c":{"1":{"1":2},"2":{"01":-0.5}}},
"risk":{"1":{"1":[1]},"02":{"1":[3,1]},"3":{"9":[0.0000000000001]}}},
"b":{"tmax":2,
"workload":{},
"risk":{"1":{"1":[2]},"2":{"2":[1,5.0000000000001]}},
"Delta":[1,1]}},
"Exclusions":{"e":["a","b","s"]},
"Quantile":0.95,"Alpha":0.5,"T":2,"Scenarios_number":[1,2]}"#;

/// The same instance in another order and in other words, with values that are skipped and a load at a start past the
/// last one.
pub const REORDERED: &str = r#"{"T":"2","Scenarios_number":[1.0,"2"],"note":{"max":[1e9],"max":0},
"Exclusions":{"e":["a","\u0062","s"]},
"Interventions":{
"\u0061":{"risk":{"2":{"001":[3,1]},"1":{"1":[1]},"7":{"1":[1e-13]}},"load":[],
"workload":{"c":{"2":{"1":-5e-1,"3":6},"1":{"1":2.0}}},"Delta":[2,9],"tmax":"1"},
"b":{"Delta":[1,1],"risk":{"2":{"2":[1,5.0000000000001]},"1":{"1":[2]}},"workload":{},"tmax":2}},
"Seasons":{"s":[7,2,2]},"Resources":{"c":{"min":[0,25e-2],"unit":null,"max":[3,3]}},
"Alpha":0.5,"Quantile":95e-2}"#;

/// How long the pieces of a file are that is read by pieces.
pub const PIECES: [usize; 9] = [1, 7, 15, 16, 17, 63, 64, 65, 4096];

/// The greatest slack.
pub fn slack() -> Fixed
    ensures { IsSlack result }
{
    Fixed::from(1_000_000_000u64)
}

/// The answer to a file that is read by pieces of at most so many bytes, where this call fails.
pub fn of_file(
    alloc: Global,
    limits: &Limits,
    text: &[u8],
    most: usize,
    failing: Option<(DeskCall, u32)>,
) -> Result<Instance, StreamFault>
    requires limits { AreStandard limits.now }
    requires some { 0 < most }
{
    let mut desk = MemDesk::make(alloc);
    desk.put_file("I", text)?;
    if let Some((call, nth)) = failing {
        desk.fail_at(call, nth)?;
    }
    desk.read_by(most);
    read_instance_from(alloc, limits, slack(), &mut desk, "I")
}
