//! The command `rehearse`: a drawn instance is planned and bounded, and a summary is said.
//!
//! `RunsRehearse` states what a run promises, by what the desk shows before and after it.
#![tactic(auto)]

mod bounding;
mod drawn;
mod rehearsal;
mod rehearse;
mod summary;
mod undoing;

pub use rehearse::rehearse_drawn;
