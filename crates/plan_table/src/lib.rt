//! A plan looked at period by period: what a period of it comes to, and the text that says so.
//!
//! A contract sees the report of a period as a record of numbers and lists, and `IsReport` says which record it is.
//! Periods, starts and days count from 1, interventions, resources and exclusions from 0; in texts they have names.
#![tactic(auto)]

mod clashes;
mod figures;
mod laws;
mod lists;
mod loads;
mod period;
mod report;
mod runs;
mod say;

pub use laws::{no_fault_means_feasible, one_report, values_are_shares};
pub use lists::{ClashLines, LoadLines, RunLines};
pub use period::period_report;
pub use report::{LoadLine, LoadState, PeriodReport, RunLine};
pub use say::say_report;
