//! Reading the instance of a file: from its bytes, or piece by piece from a device.
#![tactic(auto)]

mod build;
mod empty;
mod fault;
mod follow;
mod keeper;
mod name_lists;
mod part_faults;
mod pieces;
mod read;
mod reader;
mod stream;

pub use fault::{InstanceFault, StreamFault};
pub use instance_shape::{Known, Which};
pub use read::{read_instance, read_instance_from};
