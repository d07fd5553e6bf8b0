//! Scores, means and excesses, exact, rounded and at the ranks around the quantile.

use crate::sketches::{NONE, ONE, PAIR, SINGLE, UNEVEN};
use crate::verdicts::{feasible, free, judges};
use plan_score::Verdict;
use small_instances::Sketch;
use std::test::Fail;

const STEEP: Sketch<'static> = Sketch {
    quantile: 950_000,
    ..PAIR
};

#[test]
fn values_are_exact(rt: HostRuntime) -> Result<(), Fail> {
    let steep = feasible(
        (3_500_000_000_000_000_000, 3_500_000_000_000_000_000),
        (1_750_000_000_000, 1_750_000_000_000),
        (2_000_000_000_000, 2_000_000_000_000),
        (1_500_000_000_000, 1_500_000_000_000),
    );
    judges(&rt, rt.alloc(), &STEEP, &[([Some(1), Some(2)], steep)])?;
    let uneven = feasible(
        (9_250_000_000_000_000_000, 9_250_000_000_000_000_000),
        (3_083_333_333_333, 3_083_333_333_334),
        (4_666_666_666_666, 4_666_666_666_667),
        (1_500_000_000_000, 1_500_000_000_000),
    );
    judges(&rt, rt.alloc(), &UNEVEN, &[([Some(1), Some(3)], uneven)])?;
    Ok(())
}

const ROUNDED: Sketch<'static> = Sketch {
    soft: &[true],
    ..SINGLE
};

#[test]
fn values_enclose_what_is_rounded(rt: HostRuntime) -> Result<(), Fail> {
    let negative = feasible(
        (-1_666_666_666_666_666_667, -1_666_666_666_666_666_666),
        (-1_666_666_666_667, -1_666_666_666_666),
        (-1_666_666_666_667, -1_666_666_666_666),
        (666_666_666_666, 666_666_666_667),
    );
    judges(&rt, rt.alloc(), &SINGLE, &[([Some(1)], negative)])?;
    let rounded = feasible(
        (-1_666_666_666_666_666_667, -1_666_666_666_666_666_666),
        (-1_666_666_666_668, -1_666_666_666_666),
        (-1_666_666_666_668, -1_666_666_666_665),
        (666_666_666_665, 666_666_666_668),
    );
    judges(&rt, rt.alloc(), &ROUNDED, &[([Some(1)], rounded)])?;
    Ok(())
}

#[test]
fn a_plan_of_nothing_is_free(rt: HostRuntime) -> Result<(), Fail> {
    judges(&rt, rt.alloc(), &NONE, &[([], free())])?;
    Ok(())
}

/// Sums -9, 0 and 3, whose mean is -2; the rank is the least.
const LEAST: Sketch<'static> = Sketch {
    alpha: 0,
    quantile: 333_333,
    risks: &[3 * ONE, -9 * ONE, 0],
    ..SINGLE
};

const ABOVE_LEAST: Sketch<'static> = Sketch {
    quantile: 333_334,
    ..LEAST
};

const BELOW_GREATEST: Sketch<'static> = Sketch {
    quantile: 666_666,
    ..LEAST
};

const GREATEST: Sketch<'static> = Sketch {
    quantile: 666_667,
    ..LEAST
};

/// The values where the excess over the mean is so many counts.
fn spread(excess: i64) -> Verdict {
    let mean = -2_000_000_000_000;
    let score = excess as i128 * 1_000_000;
    let excess = excess as i128;
    feasible(
        (score, score),
        (excess, excess),
        (mean, mean),
        (excess, excess),
    )
}

#[test]
fn a_third_is_rounded_up(rt: HostRuntime) -> Result<(), Fail> {
    judges(&rt, rt.alloc(), &LEAST, &[([Some(1)], spread(0))])?;
    judges(
        &rt,
        rt.alloc(),
        &ABOVE_LEAST,
        &[([Some(1)], spread(2_000_000_000_000))],
    )?;
    Ok(())
}

#[test]
fn two_thirds_are_rounded_up(rt: HostRuntime) -> Result<(), Fail> {
    judges(
        &rt,
        rt.alloc(),
        &BELOW_GREATEST,
        &[([Some(1)], spread(2_000_000_000_000))],
    )?;
    judges(
        &rt,
        rt.alloc(),
        &GREATEST,
        &[([Some(1)], spread(5_000_000_000_000))],
    )?;
    Ok(())
}
