//! The command `improve`: a better plan than one that is given is made, written, and reported.
//!
//! `RunsImprove` states what a run promises, by what the desk shows before and after it.
#![tactic(auto)]

mod improve;
mod report;
mod solution;

pub use improve::improve_files;
