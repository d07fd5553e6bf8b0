//! A test of starts, for callers that need allowed ones.
ghost use Rattle.std.specs.Prelude.{IsTrue};
ghost use Rattle.instance_model.specs.Plans.{AreAllowedStarts};

use instance_model::Instance;

/// Whether these are starts of all interventions, one each, and all of them allowed.
pub fn are_allowed(inst: &Instance, starts: &[u32]) -> bool
    ensures only_allowed { IsTrue result → AreAllowedStarts inst.now starts.now }
    ensures all_allowed { AreAllowedStarts inst.now starts.now → IsTrue result }
{
    if starts.len() != inst.interventions() as usize {
        return false;
    }
    for i in 0..inst.interventions() {
        if !inst.allowed(i, starts[i as usize]) {
            return false;
        }
    }
    true
}
