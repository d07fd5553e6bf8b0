//! The first broken exclusion, with the first period in which it is.
ghost use Rattle.std.specs.Prelude.{◌≡◌, ℕ, ◌<◌, length, IfSome, IfNone};
ghost use Rattle.instance_model.specs.Plans.{start_of, RunsAreAllowed, runs_at};
ghost use Rattle.instance_model.specs.Rules.{clash_rule_at, first_clash_rule};
ghost use Rattle.duration_calendar.specs.Windows.{in_window, IsInHorizon};

use duration_calendar::{Window, meets_in, run};
use instance_model::{Instance, Rule};

/// The periods in which intervention `i` is in progress, where it has a start.
fn window_of(inst: &Instance, plan: &[Option<u32>], i: u32) -> Option<Window>
    requires each { length plan.now ≡ length inst.now.names }
    requires allowed { RunsAreAllowed inst.now plan.now }
    requires number { i < length inst.now.names }
    ensures periods { IfSome result (λ w.
        (t : ℕ) → in_window w t ≡ runs_at inst.now i t (start_of plan.now i)) }
    ensures horizon { IfSome result (IsInHorizon inst.now) }
    ensures none { IfNone result (start_of plan.now i ≡ None) }
{
    let s = plan[i as usize]?;
    Some(run(inst, i, s))
}

/// The rule that names the least period in which exclusion `e` is broken.
fn clash_rule(inst: &Instance, plan: &[Option<u32>], e: u32) -> Option<Rule>
    requires each { length plan.now ≡ length inst.now.names }
    requires allowed { RunsAreAllowed inst.now plan.now }
    requires exclusion { e < length inst.now.exclusion_names }
    ensures { result ≡ clash_rule_at inst.now plan.now e }
{
    let exclusion = inst.exclusion(e);
    let first = window_of(inst, plan, exclusion.first)?;
    let second = window_of(inst, plan, exclusion.second)?;
    let t = meets_in(inst, exclusion.season, first, second)?;
    Some(Rule::Clash { e, t })
}

/// The first broken exclusion.
pub(crate) fn broken_exclusion(inst: &Instance, plan: &[Option<u32>]) -> Option<Rule>
    requires each { length plan.now ≡ length inst.now.names }
    requires allowed { RunsAreAllowed inst.now plan.now }
    ensures { result ≡ first_clash_rule inst.now plan.now }
{
    for e in 0..inst.exclusions() {
        if let Some(rule) = clash_rule(inst, plan, e) {
            return Some(rule);
        }
    }
    None
}
