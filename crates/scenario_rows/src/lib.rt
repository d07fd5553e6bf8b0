//! The score of runs on board, kept as runs come and go: a row of scenario sums a period.
//!
//! A contract sees the rows as the start of each intervention on board beside the scenario sums by period. Periods,
//! starts and scenarios count from 1; interventions count from 0. Only making the rows takes memory.
#![tactic(auto)]

mod change;
mod judge;
mod part;
mod period_row;
mod quantile;
mod risk_rows;
mod runs;
mod shift;
mod sum_row;
mod touched;

pub use change::{Change, RunChange};
pub use risk_rows::RiskRows;
