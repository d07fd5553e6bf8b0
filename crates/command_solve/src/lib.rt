//! The command `solve`: a plan, a certificate and a trail are made, written, and reported.
//!
//! `RunsSolve` states what a run promises, by what the desk shows before and after it.
#![tactic(auto)]

mod making;
mod report;
mod solution;
mod solve;

pub use solve::{SolveFiles, solve_files};
