//! The first start that would be kept and isn't allowed.
ghost use Rattle.std.specs.Prelude.{◌≡◌, ◌<◌, ◌≤◌, ◌↔◌, length, IsNone, Some};
ghost use Rattle.instance_model.specs.Rules.{start_rule_at};
ghost use Rattle.plan_roll.specs.Begun.{KeptAreAllowed, kept_rule_at, first_kept_rule};

use instance_model::{Instance, Rule};

/// The rule on starts that intervention `i` breaks at start `s`.
#[tactic(auto, using(std::proofs::lemmas::Bool::Decides::nat_tests), unfolding(instance_model::specs::Rules::start_rule_at))]
fn start_rule(inst: &Instance, i: u32, s: u32) -> Option<Rule>
    requires { i < length inst.now.names }
    ensures { result ≡ start_rule_at inst.now i (Some s) }
{
    if s < 1 {
        return Some(Rule::Outside { i, s });
    }
    if s > inst.tmax(i) {
        return Some(Rule::Outside { i, s });
    }
    if inst.allowed(i, s) {
        None
    } else {
        Some(Rule::Past { i, s })
    }
}

/// The rule that the start of intervention `i` breaks, if it is kept.
fn kept_rule(inst: &Instance, plan: &[Option<u32>], period: u32, i: u32) -> Option<Rule>
    requires number { i < length inst.now.names }
    requires each { length plan.now ≡ length inst.now.names }
    ensures { result ≡ kept_rule_at inst.now plan.now period i }
{
    let Some(s) = plan[i as usize] else {
        return None;
    };
    if s < period {
        start_rule(inst, i, s)
    } else {
        None
    }
}

/// The rule that the first kept start breaks which isn't allowed, by intervention: a start before `period` is kept.
/// Takes no memory.
pub fn kept_fault(inst: &Instance, plan: &[Option<u32>], period: u32) -> Option<Rule>
    requires each { length plan.now ≡ length inst.now.names }
    requires from { 1 ≤ period }
    requires to { period ≤ 512 }
    ensures rule { result ≡ first_kept_rule inst.now plan.now period }
    ensures none { IsNone result ↔ KeptAreAllowed inst.now plan.now period }
{
    for i in 0..inst.interventions() {
        if let Some(rule) = kept_rule(inst, plan, period, i) {
            return Some(rule);
        }
    }
    None
}
