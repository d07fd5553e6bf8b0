//! What stands in the report of a period.

use crate::lists::{ClashLines, LoadLines, RunLines};

/// The report of a period of a plan.
///
/// The numbers from `least` to `excess_high` are counts of 10^-12. `rank` is the place of the quantile among the
/// scenario sums in ascending order, from 1.
#[derive(Drop)]
pub struct PeriodReport {
    pub t: u32,
    pub scenarios: u32,
    pub rank: u32,
    pub least: i128,
    pub quantile: i128,
    pub greatest: i128,
    pub mean_low: i128,
    pub mean_high: i128,
    pub excess_low: i128,
    pub excess_high: i128,
    pub loads: LoadLines,
    pub runs: RunLines,
    pub clashes: ClashLines,
}

/// How a load stands to its limits.
#[derive(Clone, Copy, Debug, PartialEq, Eq)]
pub enum LoadState {
    /// Within both.
    Fits,
    /// Above the upper one.
    Over,
    /// Not above the upper one, and below the lower one.
    Under,
}

/// The load of resource `c` and its limits, in counts of 10^-12.
#[derive(Clone, Copy, Debug, PartialEq, Eq)]
pub struct LoadLine {
    pub c: u32,
    pub load: i128,
    pub lower: i128,
    pub upper: i128,
    pub state: LoadState,
}

/// Intervention `i` in progress: its start, which day of its run the period is, how many periods the run has, and the
/// mean of its own risk, rounded down and up, in counts of 10^-12.
#[derive(Clone, Copy, Debug, PartialEq, Eq)]
pub struct RunLine {
    pub i: u32,
    pub start: u32,
    pub day: u32,
    pub duration: u32,
    pub low: i128,
    pub high: i128,
}
