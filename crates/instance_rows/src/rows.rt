//! The rows of a file: what a reader keeps of it, in the file's own words and order.

use fixed_num::Fixed;
use instance_model::RiskLists;
use ordered_keys::TextSet;

/// The limits of a resource as the file has them, in counts of 10^-12.
#[derive(Drop)]
pub struct Bands {
    pub most: Vec<Fixed>,
    pub least: Vec<Fixed>,
}

/// A workload in a period, at a start. Both count from 1.
#[derive(Clone, Copy, Debug)]
pub struct Load {
    pub period: u32,
    pub start: u32,
    pub load: Fixed,
}

/// The workload of an intervention of one resource, which the file may not have.
#[derive(Drop)]
pub struct Workload {
    pub resource: String,
    pub loads: Vec<Load>,
}

/// An intervention.
#[derive(Drop)]
pub struct Work {
    pub tmax: u32,
    /// All of `Delta`, in periods.
    pub durations: Vec<u32>,
    pub workloads: Vec<Workload>,
    pub risks: RiskLists,
}

/// The rows of a file. Resources, seasons, interventions and exclusions are their names, each with a
/// row of the same number in the list behind.
#[derive(Drop)]
pub struct FileRows {
    pub periods: u32,
    /// In millionths, as the quantile.
    pub alpha: u32,
    pub quantile: u32,
    /// By period.
    pub scenarios: Vec<u32>,
    pub resources: TextSet,
    pub bands: Vec<Bands>,
    pub seasons: TextSet,
    pub season_periods: Vec<Vec<u32>>,
    pub interventions: TextSet,
    pub works: Vec<Work>,
    pub exclusions: TextSet,
    /// Of each exclusion the names of its interventions and of its season.
    pub exclusion_words: Vec<Vec<String>>,
    /// How many numbers of the file were changed by rounding.
    pub rounded: u64,
}
