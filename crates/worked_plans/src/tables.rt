//! Reports of plans of hand-made instances: a caller that finds out by these what is feasible.
//!
//! The tests are worked rows, said to a desk in memory.

mod feasible;
#[cfg(test)]
mod rows;

pub use feasible::is_feasible;
