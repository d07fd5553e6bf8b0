//! Exclusions and their seasons, and bands that come before them.

use crate::sketches::{BOTH, FIRST_ALONE, LONG, ONE, PAIR, SECOND_ALONE, SURE};
use crate::verdicts::{clash, feasible, free, judges, over, plain};
use small_instances::Sketch;
use std::test::Fail;

/// The two exclude each other in period 2 alone.
const LATE: Sketch<'static> = Sketch {
    upper: &[12 * ONE, 12 * ONE],
    seasons: 1,
    in_season: &[false, true],
    excluded: &[BOTH],
    ..PAIR
};

#[test]
fn exclusions_hold_in_their_season(rt: HostRuntime) -> Result<(), Fail> {
    let rows = [
        ([Some(1), Some(1)], plain()),
        ([Some(2), Some(2)], clash(0, 2)),
    ];
    judges(&rt, rt.alloc(), &LATE, &rows)?;
    let kept = feasible(
        (2_000_000_000_000_000_000, 2_000_000_000_000_000_000),
        (1_000_000_000_000, 1_000_000_000_000),
        (1_000_000_000_000, 1_000_000_000_000),
        (0, 0),
    );
    let rows = [
        ([Some(1), Some(1)], clash(0, 1)),
        ([Some(2), Some(2)], clash(0, 2)),
        ([Some(1), Some(2)], kept),
    ];
    judges(&rt, rt.alloc(), &SURE, &rows)?;
    Ok(())
}

const LATE_AND_BANDED: Sketch<'static> = Sketch {
    upper: &[12 * ONE, 10 * ONE],
    ..LATE
};

#[test]
fn bands_come_before_exclusions(rt: HostRuntime) -> Result<(), Fail> {
    let rows = [([Some(2), Some(2)], over(0, 2, 12 * ONE, 10 * ONE))];
    judges(&rt, rt.alloc(), &LATE_AND_BANDED, &rows)?;
    Ok(())
}

/// Only the period that all runs share is in season.
const MIDDLE: Sketch<'static> = Sketch {
    in_season: &[false, true, false],
    ..LONG
};

#[test]
fn runs_may_share_periods_outside_the_season(rt: HostRuntime) -> Result<(), Fail> {
    let rows = [
        ([Some(1), Some(1)], clash(0, 1)),
        ([Some(2), Some(2)], clash(0, 3)),
        ([Some(1), Some(2)], free()),
    ];
    judges(&rt, rt.alloc(), &LONG, &rows)?;
    let rows = [
        ([Some(1), Some(1)], clash(0, 2)),
        ([Some(1), Some(2)], clash(0, 2)),
    ];
    judges(&rt, rt.alloc(), &MIDDLE, &rows)?;
    Ok(())
}

const ALONE: Sketch<'static> = Sketch {
    in_season: &[false, false, true],
    excluded: &[FIRST_ALONE],
    ..LONG
};

const EACH_ALONE: Sketch<'static> = Sketch {
    excluded: &[SECOND_ALONE, FIRST_ALONE],
    ..LONG
};

#[test]
fn an_intervention_may_exclude_itself(rt: HostRuntime) -> Result<(), Fail> {
    let rows = [
        ([Some(1), Some(2)], free()),
        ([Some(2), Some(1)], clash(0, 3)),
    ];
    judges(&rt, rt.alloc(), &ALONE, &rows)?;
    judges(
        &rt,
        rt.alloc(),
        &EACH_ALONE,
        &[([Some(1), Some(2)], clash(0, 3))],
    )?;
    Ok(())
}
