//! Rows of sums, one for each scenario, with the m-th smallest: a finite map with a rank.
//!
//! Scenarios and ranks count from 1. Only making a row takes memory.
#![tactic(auto)]

mod balance;
mod change;
mod entry;
mod flat_row;
mod height;
mod ranks;
mod row;
mod tree;
mod tree_row;

pub use flat_row::FlatRow;
pub use height::height_limits;
pub use row::Row;
pub use tree_row::TreeRow;
