//! From the rows of a file to the instance that they define, or its first fault across the file.
#![tactic(auto)]

mod assembly;
mod cells;
mod checks;
mod exclusions;
mod fault;
mod fill;
mod grid;
mod limits;
mod names;
mod order;
mod rows;
mod seasons;
mod works;

pub use assembly::assemble;
pub use fault::{CrossFault, RowsFault};
pub use rows::{Bands, FileRows, Load, Work, Workload};
