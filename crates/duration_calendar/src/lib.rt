//! The calendar of an instance: runs as windows, allowed starts, periods that two runs share.
//!
//! Periods and starts count from 1. No call takes memory.
#![tactic(auto)]

mod calendar;
mod window;

pub use calendar::{first_allowed, meets_in, run};
pub use window::{Window, in_run};
