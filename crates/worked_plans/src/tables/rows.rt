//! Worked rows: the text of a report, worked out by hand from the definitions.

ghost use Rattle.std.specs.Prelude.{IsTrue};
ghost use Rattle.small_instances.specs.Sketches.{is_fitting};

use crate::is_feasible;
use crate::sketches::{BOTH, ONE, PAIR, SINGLE};
use instance_model::Instance;
use plan_desk::MemDesk;
use plan_table::{period_report, say_report};
use small_instances::{Sketch, are_allowed, instance};
use std::alloc::{AllocError, Global};
use std::process::Abort;
use std::test::Fail;

/// The two exclude each other in period 2 alone, and both are needed in period 1.
const LATE: Sketch<'static> = Sketch {
    upper: &[12 * ONE, 12 * ONE],
    lower: &[ONE, 0],
    seasons: 1,
    in_season: &[false, true],
    excluded: &[BOTH],
    ..PAIR
};

/// One intervention in one period at a soft start, in three scenarios.
const ROUNDED: Sketch<'static> = Sketch {
    soft: &[true],
    ..SINGLE
};

/// Whether the report of period `t` says this text; none where there is no such report.
fn report_says(
    alloc: Global,
    inst: &Instance,
    starts: &[u32],
    t: u32,
    text: &[u8],
) -> Result<Option<bool>, Fail> {
    if !are_allowed(inst, starts) || t < 1 || t > inst.periods() {
        return Ok(None);
    }
    let report = period_report(alloc, inst, starts, t)?;
    let mut desk = MemDesk::make(alloc);
    say_report(inst, &report, &mut desk)?;
    Ok(Some(desk.spoken() == text))
}

/// Whether the plan is feasible; none where a start isn't allowed.
fn judged(alloc: Global, inst: &Instance, starts: &[u32]) -> Result<Option<bool>, AllocError> {
    if !are_allowed(inst, starts) {
        return Ok(None);
    }
    Ok(Some(is_feasible(alloc, inst, starts)?))
}

/// The report says this text, and the plan is feasible or not.
fn says(
    rt: &impl Abort,
    alloc: Global,
    sketch: &Sketch,
    starts: &[u32],
    t: u32,
    text: &[u8],
    feasible: bool,
) -> Result<(), Fail>
    requires { IsTrue (is_fitting sketch.now) }
{
    let inst = instance(alloc, sketch)?;
    assert_eq!(rt;
        report_says(alloc, &inst, starts, t, text)?,
        Some(true),
        "{starts:?} in {t}"
    );
    assert_eq!(rt; judged(alloc, &inst, starts)?, Some(feasible), "{starts:?}");
    Ok(())
}

const FIRST_ALONE: &[u8] = b"period 1 scenarios 2 rank 1
risk 1.000000000000 1.000000000000 3.000000000000
mean 2.000000000000 2.000000000000
excess 0.000000000000 0.000000000000
load N1 6.000000000000 0.000000000000 10.000000000000 fits
run N1 1 1 1 2.000000000000 2.000000000000
";

/// The two together take 12.
const BOTH_OVER: &[u8] = b"period 1 scenarios 2 rank 1
risk 3.000000000000 3.000000000000 5.000000000000
mean 4.000000000000 4.000000000000
excess 0.000000000000 0.000000000000
load N1 12.000000000000 0.000000000000 10.000000000000 over
run N1 1 1 1 2.000000000000 2.000000000000
run N2 1 1 1 2.000000000000 2.000000000000
";

#[test]
fn loads_and_runs_are_said(rt: HostRuntime) -> Result<(), Fail> {
    says(&rt, rt.alloc(), &PAIR, &[1, 2], 1, FIRST_ALONE, true)?;
    says(&rt, rt.alloc(), &PAIR, &[1, 1], 1, BOTH_OVER, false)
}

const IDLE: &[u8] = b"period 1 scenarios 2 rank 1
risk 0.000000000000 0.000000000000 0.000000000000
mean 0.000000000000 0.000000000000
excess 0.000000000000 0.000000000000
load N1 0.000000000000 1.000000000000 12.000000000000 under
";

const TOGETHER: &[u8] = b"period 2 scenarios 2 rank 1
risk 5.000000000000 5.000000000000 9.000000000000
mean 7.000000000000 7.000000000000
excess 0.000000000000 0.000000000000
load N1 12.000000000000 0.000000000000 12.000000000000 fits
run N1 2 1 1 5.000000000000 5.000000000000
run N2 2 1 1 2.000000000000 2.000000000000
clash N1
";

#[test]
fn idle_periods_and_exclusions_are_said(rt: HostRuntime) -> Result<(), Fail> {
    says(&rt, rt.alloc(), &LATE, &[2, 2], 1, IDLE, false)?;
    says(&rt, rt.alloc(), &LATE, &[2, 2], 2, TOGETHER, false)
}

/// The sums add up to -5, and the quantile is -1.
const AT_SOFT_START: &[u8] = b"period 1 scenarios 3 rank 3
risk -2.000000000000 -1.000000000000 -1.000000000000
mean -1.666666666668 -1.666666666665
excess 0.666666666665 0.666666666668
run N1 1 1 1 -1.666666666667 -1.666666666666
";

#[test]
fn soft_starts_widen_mean_and_excess(rt: HostRuntime) -> Result<(), Fail> {
    says(&rt, rt.alloc(), &ROUNDED, &[1], 1, AT_SOFT_START, true)
}
