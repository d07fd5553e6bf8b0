//! The report of a period, from scratch.
ghost use Rattle.std.specs.Prelude.{◌≡◌, ◌<◌, ◌≤◌, IfOk};
ghost use Rattle.instance_model.specs.Plans.{AreAllowedStarts};
ghost use Rattle.plan_table.specs.Reports.{IsReport};
ghost use Rattle.plan_table.specs.Texts.{NamesWithin};

use crate::clashes::clash_lines;
use crate::figures::figures_of;
use crate::loads::load_lines;
use crate::report::PeriodReport;
use crate::runs::run_lines;
use fixed_num::Steps;
use instance_model::{Instance, plan_of};
use std::alloc::{AllocError, Global};
use std::marker::Brand;
use std::sync::ledger::{Blank, Ledger};

/// The report of period `t`, computed on a new ledger.
fn report_on<L: Ledger>(
    alloc: Global,
    inst: &Instance,
    starts: &[u32],
    t: u32,
    blank: Blank,
) -> Result<PeriodReport, AllocError>
    requires name { blank.name ≡ L.name }
    requires parts { blank.parts ≡ L.parts }
    requires some { 0 < blank.parts }
    requires allowed { AreAllowedStarts inst.now starts.now }
    requires from { 1 ≤ t }
    requires to { t ≤ inst.now.periods }
    ensures { IfOk result (IsReport inst.now starts.now t) }
{
    let mut steps: Steps<L> = Steps::zero(blank);
    let plan = plan_of(alloc, starts)?;
    let figures = figures_of(alloc, inst, plan.as_slice(), t, &mut steps)?;
    let loads = load_lines(alloc, inst, plan.as_slice(), t)?;
    let runs = run_lines(alloc, inst, starts, t, &mut steps)?;
    let clashes = clash_lines(alloc, inst, starts, t)?;
    Ok(PeriodReport {
        t,
        scenarios: inst.scenarios(t),
        rank: inst.rank(t),
        least: figures.ranked.least,
        quantile: figures.ranked.quantile,
        greatest: figures.ranked.greatest,
        mean_low: figures.mean_low,
        mean_high: figures.mean_high,
        excess_low: figures.excess_low,
        excess_high: figures.excess_high,
        loads,
        runs,
        clashes,
    })
}

/// The report of period `t` of a plan of allowed starts, one for each intervention, from scratch.
///
/// Takes memory for the scenario sums of the period, the plan and the lists of the report.
pub fn period_report(
    alloc: Global,
    inst: &Instance,
    starts: &[u32],
    t: u32,
) -> Result<PeriodReport, AllocError>
    requires allowed { AreAllowedStarts inst.now starts.now }
    requires from { 1 ≤ t }
    requires to { t ≤ inst.now.periods }
    ensures report { IfOk result (IsReport inst.now starts.now t) }

    // So it can be said.
    ensures names { IfOk result (NamesWithin inst.now) }
{
    report_on::<Brand>(alloc, inst, starts, t, Blank::new(1))
}
