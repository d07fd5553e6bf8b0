//! Which exclusions the kept starts break, and how many, as starts change one at a time.
//!
//! A contract sees `Clashes` as the starts beside what is kept of them, and says by a relation over which instance it
//! was made. Periods and starts count from 1; interventions, seasons and exclusions count from 0.
#![tactic(auto)]

mod broken;
mod clashes;
mod named;

pub use clashes::Clashes;
pub use named::{Named, named_lists};
