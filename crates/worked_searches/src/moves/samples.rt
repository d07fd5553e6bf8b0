//! The instances of the tests.

use instance_model::{Exclusion, Instance};
use small_instances::{Sketch, instance};
use std::alloc::{AllocError, Global};

/// Two periods of one scenario each, and nothing else.
const BARE: Sketch<'static> = Sketch {
    periods: 2,
    alpha: 0,
    quantile: 1,
    scenarios: &[1, 1],
    resources: 0,
    upper: &[],
    lower: &[],
    seasons: 0,
    in_season: &[],
    delta: &[],
    excluded: &[],
    loads: &[],
    risks: &[],
    soft: &[],
};

/// Two interventions over two periods: the first for one period, from period 1 or 2, the second for both.
///
/// The risks are of the first at start 1 in period 1, at start 2 in period 2, then of the second in periods 1 and 2.
const RISKY: Sketch<'static> = Sketch {
    alpha: 250_000,
    quantile: 600_000,
    scenarios: &[3, 2],
    delta: &[&[1, 1], &[2]],
    loads: &[&[], &[]],
    risks: &[-1, -1, -2, -3, 5, 1, 1, -5, 2, -2],
    soft: &[false, false, false, false],
    ..BARE
};

/// One intervention of one period: it loads the one resource with 7 from period 1, and with 2 from period 2.
const LOADED: Sketch<'static> = Sketch {
    resources: 1,
    upper: &[5, 5],
    lower: &[1, 2],
    delta: &[&[1, 1]],
    loads: &[&[(1, 1, 0, 7), (2, 2, 0, 2)]],
    risks: &[0, 0],
    soft: &[false, false],
    ..BARE
};

/// Two interventions of one period each; period 1 is in season. They exclude each other, and the second one itself.
const EXCLUSIVE: Sketch<'static> = Sketch {
    seasons: 1,
    in_season: &[true, false],
    delta: &[&[1, 1], &[1, 1]],
    excluded: &[EACH_OTHER, SECOND_ALONE],
    loads: &[&[], &[]],
    risks: &[0, 0, 0, 0],
    soft: &[false, false, false, false],
    ..BARE
};

/// Two interventions of two periods each over three periods, of which the first and the last are in season.
///
/// The risks are of the first at start 1 in periods 1 and 2, at start 2 in periods 2 and 3, then of the second.
const OVERLAPPING: Sketch<'static> = Sketch {
    periods: 3,
    alpha: 250_000,
    quantile: 600_000,
    scenarios: &[1, 2, 1],
    resources: 1,
    upper: &[5, 3, 1],
    lower: &[1, 2, 0],
    seasons: 1,
    in_season: &[true, false, true],
    delta: &[&[2, 2], &[2, 2]],
    excluded: &[EACH_OTHER],
    loads: &[&[(1, 2, 0, 3), (2, 2, 0, 4)], &[(1, 1, 0, 1), (2, 3, 0, 2)]],
    risks: &[1, 2, 6, 5, 1, 3, 4, 1, 1, -2, 3, 2],
    soft: &[false, false, false, false, false, false, false, false],
};

/// The count of 1.
const ONE: i64 = 1_000_000_000_000;

/// Two interventions of one period each, from period 1 or 2, each of which takes 6 of the 10 that there are.
///
/// The risks are of the first at start 1 and at start 2, then of the second.
const PAIRED: Sketch<'static> = Sketch {
    alpha: 1_000_000,
    quantile: 1_000_000,
    resources: 1,
    upper: &[10 * ONE, 10 * ONE],
    lower: &[0, 0],
    delta: &[&[1, 1], &[1, 1]],
    loads: &[
        &[(1, 1, 0, 6 * ONE), (2, 2, 0, 6 * ONE)],
        &[(1, 1, 0, 6 * ONE), (2, 2, 0, 6 * ONE)],
    ],
    risks: &[0, 4 * ONE, 0, 2 * ONE],
    soft: &[false, false, false, false],
    ..BARE
};

/// Two interventions from period 1, 2 or 3 to period 3. Each takes 8 of the 10 of the first resource in period 1. Of the
/// second one period 3 needs 10: the first gives 5, 3 or 4 by its start, the second 5, 20 or 7.
const LEADING: Sketch<'static> = Sketch {
    periods: 3,
    scenarios: &[1, 1, 1],
    resources: 2,
    upper: &[10 * ONE, 10 * ONE, 10 * ONE, 10 * ONE, 10 * ONE, 10 * ONE],
    lower: &[0, 0, 0, 0, 0, 10 * ONE],
    delta: &[&[3, 2, 1], &[3, 2, 1]],
    loads: &[
        &[
            (1, 1, 0, 8 * ONE),
            (1, 3, 1, 5 * ONE),
            (2, 3, 1, 3 * ONE),
            (3, 3, 1, 4 * ONE),
        ],
        &[
            (1, 1, 0, 8 * ONE),
            (1, 3, 1, 5 * ONE),
            (2, 3, 1, 20 * ONE),
            (3, 3, 1, 7 * ONE),
        ],
    ],
    risks: &[0, 0, 0, 0, 0, 0, 0, 0, 0, 0, 0, 0],
    soft: &[
        false, false, false, false, false, false, false, false, false, false, false, false,
    ],
    ..BARE
};

const EACH_OTHER: Exclusion = Exclusion {
    first: 0,
    second: 1,
    season: 0,
};

const SECOND_ALONE: Exclusion = Exclusion {
    first: 1,
    second: 1,
    season: 0,
};

pub fn risky(alloc: Global) -> Result<Instance, AllocError> {
    instance(alloc, &RISKY)
}

pub fn loaded(alloc: Global) -> Result<Instance, AllocError> {
    instance(alloc, &LOADED)
}

pub fn exclusive(alloc: Global) -> Result<Instance, AllocError> {
    instance(alloc, &EXCLUSIVE)
}

pub fn overlapping(alloc: Global) -> Result<Instance, AllocError> {
    instance(alloc, &OVERLAPPING)
}

pub fn paired(alloc: Global) -> Result<Instance, AllocError> {
    instance(alloc, &PAIRED)
}

pub fn leading(alloc: Global) -> Result<Instance, AllocError> {
    instance(alloc, &LEADING)
}
