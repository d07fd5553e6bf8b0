//! The command `replay`: a script is run from a plan, and the key of each plan on its way is said.
//!
//! `RunsReplay` states what a run promises, by what the desk shows before and after it.
#![tactic(auto)]

mod replay;

pub use replay::replay_files;
