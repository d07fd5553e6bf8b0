//! A better plan from any plan: one that keeps every rule, or how far the search for one came.
//!
//! A plan is a list of one start or none for each intervention; an intervention past its end has none. Interventions
//! count from 0, and starts count from 1. Scores are in parts of 10^-18, and violations in counts of 10^-12.
#![tactic(auto)]

mod first;
mod improving;
mod judging;
mod steps;

pub use improving::{Improvement, improve};
pub use judging::Judged;
