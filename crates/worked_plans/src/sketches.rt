//! Instances that several of the tests start from.

use instance_model::Exclusion;
use small_instances::Sketch;

/// The count of 1.
pub(crate) const ONE: i64 = 1_000_000_000_000;

/// Two interventions of one period each, of which either start takes 6 of the one resource.
pub(crate) const PAIR: Sketch<'static> = Sketch {
    periods: 2,
    alpha: 500_000,
    quantile: 500_000,
    scenarios: &[2, 2],
    resources: 1,
    upper: &[10 * ONE, 10 * ONE],
    lower: &[0, 0],
    seasons: 0,
    in_season: &[],
    delta: &[&[1, 1], &[1, 1]],
    excluded: &[],
    loads: &[
        &[(1, 1, 0, 6 * ONE), (2, 2, 0, 6 * ONE)],
        &[(1, 1, 0, 6 * ONE), (2, 2, 0, 6 * ONE)],
    ],
    risks: &[ONE, 3 * ONE, 5 * ONE, 5 * ONE, 2 * ONE, 2 * ONE, 4 * ONE, 0],
    soft: &[false, false, false, false],
};

/// Two interventions, of one period each, and one scenario a period.
pub(crate) const SURE: Sketch<'static> = Sketch {
    periods: 2,
    alpha: 1_000_000,
    quantile: 1_000_000,
    scenarios: &[1, 1],
    resources: 0,
    upper: &[],
    lower: &[],
    seasons: 1,
    in_season: &[true, true],
    delta: &[&[1, 1], &[1, 1]],
    excluded: &[BOTH],
    loads: &[&[], &[]],
    risks: &[0, 4 * ONE, 0, 2 * ONE],
    soft: &[false, false, false, false],
};

/// Two interventions of two periods each, without risk, over three periods.
pub(crate) const LONG: Sketch<'static> = Sketch {
    periods: 3,
    alpha: 0,
    quantile: 1,
    scenarios: &[1, 1, 1],
    resources: 0,
    upper: &[],
    lower: &[],
    seasons: 1,
    in_season: &[true, false, true],
    delta: &[&[2, 2], &[2, 2]],
    excluded: &[BOTH],
    loads: &[&[], &[]],
    risks: &[0, 0, 0, 0, 0, 0, 0, 0],
    soft: &[false, false, false, false, false, false, false, false],
};

/// One intervention in one period, in three scenarios.
pub(crate) const SINGLE: Sketch<'static> = Sketch {
    periods: 1,
    alpha: 1_000_000,
    quantile: 1_000_000,
    scenarios: &[3],
    resources: 0,
    upper: &[],
    lower: &[],
    seasons: 0,
    in_season: &[],
    delta: &[&[1]],
    excluded: &[],
    loads: &[&[]],
    risks: &[-ONE, -2 * ONE, -2 * ONE],
    soft: &[false],
};

/// Two interventions of unlike durations over three periods, with two or three scenarios each.
pub(crate) const UNEVEN: Sketch<'static> = Sketch {
    periods: 3,
    alpha: 500_000,
    quantile: 950_000,
    scenarios: &[2, 3, 2],
    resources: 1,
    upper: &[20 * ONE, 20 * ONE, 20 * ONE],
    lower: &[0, 0, 0],
    seasons: 2,
    in_season: &[true, false, true, true, true, true],
    delta: &[&[2, 2], &[1, 1, 1]],
    excluded: &[BOTH],
    loads: &[
        &[
            (1, 1, 0, 14 * ONE),
            (1, 2, 0, 14 * ONE),
            (2, 2, 0, 8 * ONE),
            (2, 3, 0, 8 * ONE),
        ],
        &[(3, 3, 0, 5_500_000_000_000)],
    ],
    risks: &[
        4 * ONE,
        8 * ONE,
        5 * ONE,
        7 * ONE,
        9 * ONE,
        ONE,
        2 * ONE,
        3 * ONE,
        2 * ONE,
        6 * ONE,
        ONE,
        ONE,
        3 * ONE,
        3 * ONE,
        3 * ONE,
        500_000_000_000,
        1_500_000_000_000,
    ],
    soft: &[false, false, false, false, false, false, false],
};

/// The two interventions exclude each other.
pub(crate) const BOTH: Exclusion = Exclusion {
    first: 0,
    second: 1,
    season: 0,
};

/// An intervention is excluded with itself.
pub(crate) const FIRST_ALONE: Exclusion = Exclusion {
    first: 0,
    second: 0,
    season: 0,
};

pub(crate) const SECOND_ALONE: Exclusion = Exclusion {
    first: 1,
    second: 1,
    season: 0,
};

/// No intervention.
pub(crate) const NONE: Sketch<'static> = Sketch {
    delta: &[],
    loads: &[],
    risks: &[],
    soft: &[],
    ..SINGLE
};
