//! Faults of the shape, and limits.

/// The fourteen required keys.
#[derive(Clone, Copy, Debug, PartialEq, Eq)]
pub enum Known {
    Resources,
    Seasons,
    Interventions,
    Exclusions,
    T,
    ScenariosNumber,
    Quantile,
    Alpha,
    Max,
    Min,
    Tmax,
    Delta,
    Workload,
    Risk,
}

/// The eight limits.
#[derive(Clone, Copy, Debug, PartialEq, Eq)]
pub enum Which {
    Periods,
    Scenarios,
    Resources,
    Interventions,
    Seasons,
    Exclusions,
    RiskCells,
    WorkloadEntries,
}

/// What is wrong with the shape at a place, in the order of the table.
#[derive(Clone, Copy, Debug, PartialEq, Eq)]
pub enum Flaw {
    Double,
    BadName,
    Missing(Known),
    Shape,
    TooLarge,
    Limit(Which),
}

/// A fault of the shape.
#[derive(Clone, Copy, Debug, PartialEq, Eq)]
pub struct Fault {
    pub at: u64,
    pub flaw: Flaw,
}
