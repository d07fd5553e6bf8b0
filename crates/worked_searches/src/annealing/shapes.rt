//! What drawn instances are like.

/// A kind of instances, each of four interventions, two resources and two seasons, of which one has no period. Two
/// pairs exclude each other, and two interventions themselves. Durations are drawn from 0 on, and some loads and risks
/// are below 0.
#[derive(Clone, Copy)]
pub(crate) struct Shape {
    pub(crate) periods: u32,
    /// The most scenarios of a period.
    pub(crate) scenarios: u32,
    /// The longest duration.
    pub(crate) longest: u32,
    pub(crate) alpha: &'static str,
    pub(crate) quantile: &'static str,
    /// What a risk is written with before its last digit.
    pub(crate) unit: &'static str,
}

/// Counts of 10^-12: scores of these are exact.
const FINE: &str = "0.00000000000";

pub(crate) const MIXED: Shape = Shape {
    periods: 5,
    scenarios: 4,
    longest: 3,
    alpha: "0.25",
    quantile: "0.6",
    unit: FINE,
};

/// Several kinds with few periods.
pub(crate) const SMALL: [Shape; 6] = [
    MIXED,
    Shape {
        scenarios: 1,
        quantile: "1",
        ..MIXED
    },
    Shape {
        alpha: "0",
        quantile: "1",
        ..MIXED
    },
    Shape {
        scenarios: 6,
        quantile: "0.000001",
        ..MIXED
    },
    Shape {
        alpha: "1",
        ..MIXED
    },
    Shape {
        scenarios: 9,
        quantile: "0.7",
        unit: "12345.6",
        ..MIXED
    },
];

/// As many periods as there may be.
pub(crate) const LONG: Shape = Shape {
    periods: 512,
    scenarios: 2,
    ..MIXED
};

/// Runs through all periods.
pub(crate) const WIDE: Shape = Shape {
    periods: 20,
    longest: 20,
    ..MIXED
};
