//! Starts that a plan lacks, that are past the last one or past the horizon; and a list of starts.

use crate::sketches::{ONE, PAIR};
use crate::verdicts::{judges, over};
use instance_model::{Rule, Starts};
use plan_score::Verdict;
use small_instances::Sketch;
use std::test::Fail;

/// No load is within its limits, and the first intervention passes the end from period 2.
const PAST: Sketch<'static> = Sketch {
    upper: &[-ONE, -ONE],
    lower: &[-ONE, -ONE],
    delta: &[&[1, 2], &[1, 1]],
    loads: &[
        &[(1, 1, 0, 6 * ONE)],
        &[(1, 1, 0, 6 * ONE), (2, 2, 0, 6 * ONE)],
    ],
    risks: &[ONE, 3 * ONE, 2 * ONE, 2 * ONE, 4 * ONE, 0],
    soft: &[false, false, false],
    ..PAIR
};

#[test]
fn starts_come_before_loads(rt: HostRuntime) -> Result<(), Fail> {
    let rows = [
        ([None, None], Verdict::Broken(Rule::Unscheduled { i: 0 })),
        ([Some(1), None], Verdict::Broken(Rule::Unscheduled { i: 1 })),
        (
            [Some(0), Some(1)],
            Verdict::Broken(Rule::Outside { i: 0, s: 0 }),
        ),
        (
            [Some(1), Some(3)],
            Verdict::Broken(Rule::Outside { i: 1, s: 3 }),
        ),
        (
            [Some(3), Some(0)],
            Verdict::Broken(Rule::Outside { i: 0, s: 3 }),
        ),
        (
            [Some(2), Some(1)],
            Verdict::Broken(Rule::Past { i: 0, s: 2 }),
        ),
        ([Some(2), None], Verdict::Broken(Rule::Past { i: 0, s: 2 })),
        ([Some(1), Some(2)], over(0, 1, 6 * ONE, -ONE)),
    ];
    judges(&rt, rt.alloc(), &PAST, &rows)?;
    Ok(())
}

#[test]
fn starts_come_back(rt: HostRuntime) -> Result<(), Fail> {
    let starts = Starts::from_vec([3, 1].to_vec(rt.alloc())?);
    assert_eq!(rt; starts.as_slice(), [3, 1].as_slice());
    let items = starts.into_vec();
    assert_eq!(rt; items.as_slice(), [3, 1].as_slice());
    Ok(())
}
