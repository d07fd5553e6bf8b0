//! Loads and their limits, of idle periods too, and which band is named first.

use crate::sketches::{NONE, ONE, PAIR};
use crate::verdicts::{judges, over, plain, under};
use small_instances::Sketch;
use std::test::Fail;

/// The upper limit in period 1 is half of 10^-3 below 12.
const CLOSE: Sketch<'static> = Sketch {
    upper: &[11_999_500_000_000, 10 * ONE],
    ..PAIR
};

#[test]
fn loads_are_within_limits(rt: HostRuntime) -> Result<(), Fail> {
    let rows = [
        ([Some(1), Some(2)], plain()),
        ([Some(1), Some(1)], over(0, 1, 12 * ONE, 10 * ONE)),
        ([Some(2), Some(2)], over(0, 2, 12 * ONE, 10 * ONE)),
    ];
    judges(&rt, rt.alloc(), &PAIR, &rows)?;
    let rows = [([Some(1), Some(1)], over(0, 1, 12 * ONE, 11_999_500_000_000))];
    judges(&rt, rt.alloc(), &CLOSE, &rows)?;
    Ok(())
}

const EQUAL_ABOVE: Sketch<'static> = Sketch {
    upper: &[12 * ONE, 6 * ONE],
    ..PAIR
};

const EQUAL_BELOW: Sketch<'static> = Sketch {
    lower: &[6 * ONE, 6 * ONE],
    ..PAIR
};

#[test]
fn loads_equal_to_limits_fit(rt: HostRuntime) -> Result<(), Fail> {
    judges(
        &rt,
        rt.alloc(),
        &EQUAL_ABOVE,
        &[([Some(1), Some(1)], plain())],
    )?;
    judges(
        &rt,
        rt.alloc(),
        &EQUAL_BELOW,
        &[([Some(1), Some(2)], plain())],
    )?;
    Ok(())
}

const NEEDED: Sketch<'static> = Sketch {
    upper: &[10 * ONE, 12 * ONE],
    lower: &[ONE, 0],
    ..PAIR
};

const NEEDED_OF_NONE: Sketch<'static> = Sketch {
    resources: 1,
    upper: &[5 * ONE],
    lower: &[ONE],
    ..NONE
};

#[test]
fn idle_periods_have_limits(rt: HostRuntime) -> Result<(), Fail> {
    let rows = [([Some(2), Some(2)], under(0, 1, 0, ONE))];
    judges(&rt, rt.alloc(), &NEEDED, &rows)?;
    judges(
        &rt,
        rt.alloc(),
        &NEEDED_OF_NONE,
        &[([], under(0, 1, 0, ONE))],
    )?;
    Ok(())
}

/// The lower limit in period 1 is above the upper one.
const CROSSED: Sketch<'static> = Sketch {
    upper: &[5 * ONE, 10 * ONE],
    lower: &[20 * ONE, 0],
    ..PAIR
};

const CROSSED_LATER: Sketch<'static> = Sketch {
    upper: &[20 * ONE, 5 * ONE],
    lower: &[20 * ONE, 0],
    ..PAIR
};

#[test]
fn bands_have_an_order(rt: HostRuntime) -> Result<(), Fail> {
    let rows = [([Some(1), Some(1)], over(0, 1, 12 * ONE, 5 * ONE))];
    judges(&rt, rt.alloc(), &CROSSED, &rows)?;
    let rows = [([Some(1), Some(2)], under(0, 1, 6 * ONE, 20 * ONE))];
    judges(&rt, rt.alloc(), &CROSSED_LATER, &rows)?;
    Ok(())
}

/// A second resource, which nothing loads, has an upper limit below 0 in period 1.
const BOTH_OVER: Sketch<'static> = Sketch {
    resources: 2,
    upper: &[10 * ONE, 5 * ONE, -ONE, 10 * ONE],
    lower: &[0, 0, -5 * ONE, 0],
    ..PAIR
};

const IDLE_OVER: Sketch<'static> = Sketch {
    upper: &[10 * ONE, 10 * ONE, -ONE, 10 * ONE],
    ..BOTH_OVER
};

#[test]
fn resources_have_an_order(rt: HostRuntime) -> Result<(), Fail> {
    let rows = [([Some(1), Some(2)], over(0, 2, 6 * ONE, 5 * ONE))];
    judges(&rt, rt.alloc(), &BOTH_OVER, &rows)?;
    let rows = [([Some(1), Some(2)], over(1, 1, 0, -ONE))];
    judges(&rt, rt.alloc(), &IDLE_OVER, &rows)?;
    Ok(())
}
