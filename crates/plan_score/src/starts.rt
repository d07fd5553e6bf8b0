//! The first broken rule on starts, by intervention.
ghost use Rattle.std.specs.Prelude.{◌≡◌, ◌<◌, length};
ghost use Rattle.instance_model.specs.Rules.{start_rule_at, first_start_rule};

use instance_model::{Instance, Rule};

/// The rule on starts that intervention `i` breaks.
#[tactic(auto, using(std::proofs::lemmas::Bool::Decides::nat_tests), unfolding(instance_model::specs::Rules::start_rule_at))]
fn start_rule(inst: &Instance, i: u32, start: Option<u32>) -> Option<Rule>
    requires { i < length inst.now.names }
    ensures { result ≡ start_rule_at inst.now i start }
{
    let Some(s) = start else {
        return Some(Rule::Unscheduled { i });
    };
    if s < 1 || s > inst.tmax(i) {
        return Some(Rule::Outside { i, s });
    }
    if inst.periods() as u64 + 1 < s as u64 + inst.delta(i, s) as u64 {
        return Some(Rule::Past { i, s });
    }
    None
}

/// The first broken rule on starts, by intervention. Takes no memory.
pub fn broken_start(inst: &Instance, plan: &[Option<u32>]) -> Option<Rule>
    requires { length plan.now ≡ length inst.now.names }
    ensures { result ≡ first_start_rule inst.now plan.now }
{
    for i in 0..inst.interventions() {
        if let Some(rule) = start_rule(inst, i, plan[i as usize]) {
            return Some(rule);
        }
    }
    None
}
