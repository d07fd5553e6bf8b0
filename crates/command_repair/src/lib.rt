//! The command `repair`: a plan with few changes is made, with a certificate of how many it needs. Both are written,
//! and reported.
//!
//! `RunsRepair` states what a run promises, by what the desk shows before and after it.
#![tactic(auto)]

mod repair;
mod report;
mod solution;

pub use repair::{RepairFiles, repair_files};
