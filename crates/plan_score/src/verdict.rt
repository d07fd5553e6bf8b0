//! The verdict on a plan: contracts say when each answer comes, and what its values enclose.
ghost use Rattle.std.specs.Prelude.{◌≡◌, ◌<◌, ◌^◌, ℕ, ℤ, List, length, None, Some, IfOk, OnErr, unsigned_abs};
ghost use Rattle.instance_model.specs.Exact.{IsReading, EnclosesReading};
ghost use Rattle.instance_model.specs.Plans.{RunsAreAllowed};
ghost use Rattle.instance_model.specs.Rules.{first_rule};
ghost use Rattle.plan_score.specs.Values.{values_of};
ghost use Rattle.plan_score.specs.Verdict.{IfFeasible, IfBroken};

use crate::bands::broken_band;
use crate::exclusions::broken_exclusion;
use crate::starts::broken_start;
use crate::values::{Values, values_on};
use instance_model::{Instance, Rule};
use std::alloc::{AllocError, Global};
use std::marker::Brand;
use std::sync::ledger::Blank;

/// The values of a plan that breaks no rule, or the first rule that it breaks.
#[derive(Clone, Copy, Debug, PartialEq, Eq)]
pub enum Verdict {
    Feasible(Values),
    Broken(Rule),
}

/// The first broken rule: starts, then bands, then exclusions. Takes no memory.
pub fn broken_rule(inst: &Instance, plan: &[Option<u32>]) -> Option<Rule>
    requires { length plan.now ≡ length inst.now.names }
    ensures { result ≡ first_rule inst.now plan.now }
{
    if let Some(rule) = broken_start(inst, plan) {
        return Some(rule);
    }
    if let Some(rule) = broken_band(inst, plan) {
        return Some(rule);
    }
    broken_exclusion(inst, plan)
}

/// The values of a plan of allowed starts, from scratch. Takes memory for the scenario sums of one period.
pub fn plan_values(
    alloc: Global,
    inst: &Instance,
    plan: &[Option<u32>],
) -> Result<Values, AllocError>
    requires each { length plan.now ≡ length inst.now.names }
    requires allowed { RunsAreAllowed inst.now plan.now }
    ensures values { IfOk result (λ values. values ≡ values_of inst.now plan.now) }
    ensures small { IfOk result (λ values. unsigned_abs values.score < 10 ^ 33) }
{
    values_on::<Brand>(alloc, inst, plan, Blank::new(1))
}

/// The verdict on a plan, from scratch: one of the two, so each comes exactly where its clause says.
///
/// Reads the loads and risks of the plan's runs alone. Takes memory for the scenario sums of one period, and none where
/// a rule is broken.
pub fn judge(alloc: Global, inst: &Instance, plan: &[Option<u32>]) -> Result<Verdict, AllocError>
    requires { length plan.now ≡ length inst.now.names }
    ensures broken { IfOk result (λ verdict. IfBroken verdict (λ rule.
        first_rule inst.now plan.now ≡ Some rule)) }
    ensures feasible { IfOk result (λ verdict. IfFeasible verdict (λ values.
        first_rule inst.now plan.now ≡ None)) }
    ensures values { IfOk result (λ verdict. IfFeasible verdict (λ values.
        values ≡ values_of inst.now plan.now)) }
    ensures small { IfOk result (λ verdict. IfFeasible verdict (λ values.
        unsigned_abs values.score < 10 ^ 33)) }

    // Whatever numbers, of which f make one count, the kept counts may have been rounded from.
    ensures encloses { IfOk result (λ verdict. IfFeasible verdict (λ values.
        (f : ℕ) (numbers : List ℤ) → IsReading inst.now f numbers →
        EnclosesReading inst.now plan.now f numbers)) }
    ensures memory { OnErr result (first_rule inst.now plan.now ≡ None) }
{
    if let Some(rule) = broken_rule(inst, plan) {
        return Ok(Verdict::Broken(rule));
    }
    inst.printed_values_enclose();
    let values = plan_values(alloc, inst, plan)?;
    Ok(Verdict::Feasible(values))
}
