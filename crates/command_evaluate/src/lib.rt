//! The command `evaluate`: judges a plan of an instance.
//!
//! `RunsEvaluate` states what a run promises, by what the desk shows before and after it.
#![tactic(auto)]

mod evaluate;

pub use evaluate::evaluate_files;
