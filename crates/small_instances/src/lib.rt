//! For tests alone: instances made by hand from small arrays, and a test of starts. No crate of the program stands on
//! it.
//!
//! Contracts see a `Sketch` as its tables, and the instance of a sketch as the same tables. That they fit is computed by
//! the check, where a sketch is handed over.
#![tactic(auto)]

mod allowed;
mod sketch;

pub use allowed::are_allowed;
pub use sketch::{Sketch, instance};
