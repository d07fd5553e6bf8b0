//! Laws of the definitions: a contract gets one by a call that does nothing.
ghost use Rattle.plan_table.specs.Laws.{OneReport, NoFaultMeansFeasible, ValuesAreShares};

use instance_model::Instance;

/// Each plan and period has one report.
pub fn one_report(inst: &Instance)
    ensures { OneReport inst.now }
{}

/// The reports of all periods of a plan of allowed starts show no load over or under and no broken exclusion exactly
/// where the plan is feasible.
pub fn no_fault_means_feasible(inst: &Instance)
    ensures { NoFaultMeansFeasible inst.now }
{}

/// The printed mean and excess of a plan of allowed starts are those of the reports of all periods, added up and
/// divided by the number of periods, rounded down and up.
pub fn values_are_shares(inst: &Instance)
    ensures { ValuesAreShares inst.now }
{}
