//! A plan with few changes from old starts, and a certificate of how many every plan has. No change of it can go back
//! alone.
//!
//! Interventions count from 0, and starts count from 1. One change is worth 10^18.
#![tactic(auto)]

mod incumbent;
mod opening;
mod repairing;

pub use opening::opening_of;
pub use repairing::{Repair, make_repair};
