//! The tables that an instance is made of, as plain data.
ghost use Rattle.instance_model.specs.Fields.{field_tables};
ghost use Rattle.instance_model.specs.RunRisks.{SuitRuns, SuitRuns-prop};

use crate::run_risks::RunRisks;
use fixed_num::Fixed;
use ordered_keys::TextSet;

/// Two interventions, which may be one, that are not to be in progress together in a period of a season.
#[derive(Clone, Copy, Debug, PartialEq, Eq)]
pub struct Exclusion {
    pub first: u32,
    pub second: u32,
    pub season: u32,
}

/// The workload of a resource in a period, at a start. Start and period count from 1, the resource from 0.
#[derive(Clone, Copy, Debug)]
pub struct LoadCell {
    pub start: u32,
    pub period: u32,
    pub resource: u32,
    pub load: Fixed,
}

/// The tables of an instance. Risks that were read are those of the runs.
#[derive(Drop)]
pub struct Parts {
    pub periods: u32,
    /// The weight of the mean, in millionths.
    pub alpha: u32,
    /// In millionths.
    pub quantile: u32,
    /// By period.
    pub scenarios: Vec<u32>,
    pub resources: TextSet,
    /// Limits by resource, then period, in counts of 10^-12.
    pub upper: Vec<i128>,
    pub lower: Vec<i128>,
    pub seasons: TextSet,
    /// By season, then period.
    pub in_season: Vec<bool>,
    pub interventions: TextSet,
    /// Durations by intervention, then start, in periods.
    pub delta: Vec<Vec<u32>>,
    pub exclusions: TextSet,
    pub excluded: Vec<Exclusion>,
    /// By intervention, strictly ascending by start, period, resource.
    pub loads: Vec<Vec<LoadCell>>,
    pub risks: RunRisks,
    /// How many numbers of the file were changed by rounding.
    pub rounded: u64,
    ghost suits: { SuitRuns (field_tables periods alpha quantile scenarios.items resources.texts.keys upper.items
        lower.items seasons.texts.keys in_season.items interventions.texts.keys delta.items exclusions.texts.keys
        excluded.items loads.items risks rounded) risks } by { SuitRuns-prop _ risks },
}
