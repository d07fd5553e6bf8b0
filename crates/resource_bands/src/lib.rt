//! The loads of the runs on board, and how far they are outside their limits, as runs come and go.
//!
//! A contract sees `Loads` as the starts on board beside what is kept of them, and says by a relation over which
//! instance it was made. Periods and starts count from 1; interventions and resources count from 0.
#![tactic(auto)]

mod above;
mod cells;
mod change;
mod limit;
mod loads;
mod row;
mod rows;

pub use above::StartChange;
pub use loads::Loads;
