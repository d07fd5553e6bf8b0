//! The first load that is outside its limits, by resource, then period.
ghost use Rattle.std.specs.Prelude.{◌≡◌, ◌+◌, ◌*◌, ◌^◌, ◌<◌, ◌≤◌, length, IfSome, IsTrue, unsigned_abs};
ghost use Rattle.instance_model.specs.Tables.{is_allowed};
ghost use Rattle.instance_model.specs.Plans.{load_at, load_sum, RunsAreAllowed};
ghost use Rattle.instance_model.specs.Rules.{first_of, band_rule_at, first_band_rule};

use crate::progress::is_in_progress;
use instance_model::{Instance, Rule};

/// The workload of resource `c` in period `t` that intervention `i` adds.
#[tactic(auto, using(std::proofs::lemmas::Bool::Decides::nat_tests), unfolding(instance_model::specs::Plans::load_at))]
fn load_part(inst: &Instance, c: u32, t: u32, i: u32, start: Option<u32>) -> i128
    requires number { i < length inst.now.names }
    requires resource { c < length inst.now.resource_names }
    requires allowed { IfSome start (λ s. IsTrue (is_allowed inst.now i s)) }
    ensures value { result ≡ load_at inst.now c t i start }
    ensures small { unsigned_abs result ≤ 10 ^ 20 }
{
    let Some(s) = start else {
        return 0;
    };
    if !is_in_progress(inst, i, s, t) {
        return 0;
    }
    inst.load(i, s, c, t).count()
}

/// The load of resource `c` in period `t`, in counts of 10^-12. Takes no memory.
pub fn load_of_plan(inst: &Instance, plan: &[Option<u32>], c: u32, t: u32) -> i128
    requires each { length plan.now ≡ length inst.now.names }
    requires allowed { RunsAreAllowed inst.now plan.now }
    requires resource { c < length inst.now.resource_names }
    ensures value { result ≡ load_sum inst.now plan.now c t }
    ensures small { unsigned_abs result ≤ 1024 * 10 ^ 20 }
{
    let mut load: i128 = 0;
    for i in 0..inst.interventions() {
        load += load_part(inst, c, t, i, plan[i as usize]);
    }
    load
}

/// The rule that the load of resource `c` breaks in period `t`, where something runs or not.
fn band_rule(inst: &Instance, plan: &[Option<u32>], c: u32, t: u32) -> Option<Rule>
    requires each { length plan.now ≡ length inst.now.names }
    requires allowed { RunsAreAllowed inst.now plan.now }
    requires resource { c < length inst.now.resource_names }
    requires from { 1 ≤ t }
    requires to { t ≤ inst.now.periods }
    ensures { result ≡ band_rule_at inst.now plan.now c t }
{
    let load = load_of_plan(inst, plan, c, t);
    let upper = inst.upper(c, t);
    let lower = inst.lower(c, t);
    if load > upper {
        return Some(Rule::Over {
            c,
            t,
            load,
            limit: upper,
        });
    }
    if load < lower {
        return Some(Rule::Under {
            c,
            t,
            load,
            limit: lower,
        });
    }
    None
}

/// The first period in which the load of resource `c` breaks a rule, as that rule.
fn broken_band_of(inst: &Instance, plan: &[Option<u32>], c: u32) -> Option<Rule>
    requires each { length plan.now ≡ length inst.now.names }
    requires allowed { RunsAreAllowed inst.now plan.now }
    requires resource { c < length inst.now.resource_names }
    ensures { result ≡ first_of inst.now.periods (λ u. band_rule_at inst.now plan.now c (u + 1)) }
{
    for u in 0..inst.periods() {
        if let Some(rule) = band_rule(inst, plan, c, u + 1) {
            return Some(rule);
        }
    }
    None
}

/// The first broken rule on loads, by resource, then period.
pub(crate) fn broken_band(inst: &Instance, plan: &[Option<u32>]) -> Option<Rule>
    requires each { length plan.now ≡ length inst.now.names }
    requires allowed { RunsAreAllowed inst.now plan.now }
    ensures { result ≡ first_band_rule inst.now plan.now }
{
    for c in 0..inst.resources() {
        if let Some(rule) = broken_band_of(inst, plan, c) {
            return Some(rule);
        }
    }
    None
}
