//! The command `roll`: the rest of a year, with what has begun kept, is written as an instance.
//!
//! `RunsRoll` states what a run promises, by what the desk shows before and after it.
#![tactic(auto)]

mod report;
mod roll;

pub use roll::{RollFiles, roll_files};
