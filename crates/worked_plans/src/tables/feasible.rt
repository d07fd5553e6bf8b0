//! Whether a plan is feasible, by its reports.

ghost use Rattle.std.specs.Prelude.{◌≡◌, ◌↔◌, IfOk, IsTrue, Some, map, All};
ghost use Rattle.instance_model.specs.Plans.{AreAllowedStarts};
ghost use Rattle.instance_model.specs.Rules.{IsFeasible};
ghost use Rattle.plan_table.specs.Laws.{ShowsNoFault};

use instance_model::Instance;
use plan_table::{
    LoadLine, LoadState, PeriodReport, no_fault_means_feasible, one_report, period_report,
};
use std::alloc::{AllocError, Global};

/// Whether all loads fit.
fn all_fit(loads: &[LoadLine]) -> bool
    ensures { IsTrue result ↔ All (λ line. line.state ≡ LoadState.Fits) loads.now }
{
    for line in loads {
        if line.state != LoadState::Fits {
            return false;
        }
    }
    true
}

/// Whether a report shows no load over or under, and no broken exclusion.
fn has_no_fault(report: &PeriodReport) -> bool
    ensures { IsTrue result ↔ ShowsNoFault report.now }
{
    all_fit(report.loads.as_slice()) && report.clashes.as_slice().is_empty()
}

/// Whether the plan of these starts is feasible. Takes the memory of a report for each period in turn.
pub fn is_feasible(alloc: Global, inst: &Instance, starts: &[u32]) -> Result<bool, AllocError>
    requires { AreAllowedStarts inst.now starts.now }
    ensures only_where_feasible { IfOk result (λ kept. IsTrue kept → IsFeasible inst.now (map Some starts.now)) }
    ensures wherever_feasible { IfOk result (λ kept. IsFeasible inst.now (map Some starts.now) → IsTrue kept) }
{
    one_report(inst);
    no_fault_means_feasible(inst);
    for u in 0..inst.periods() {
        let report = period_report(alloc, inst, starts, u + 1)?;
        if !has_no_fault(&report) {
            return Ok(false);
        }
    }
    Ok(true)
}
