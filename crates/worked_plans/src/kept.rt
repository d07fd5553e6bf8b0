//! Whether a plan keeps all rules.

ghost use Rattle.std.specs.Prelude.{◌≡◌, length, IfOk, IsTrue};
ghost use Rattle.instance_model.specs.Rules.{KeepsRules};

use instance_model::Instance;
use plan_score::{Verdict, judge};
use std::alloc::{AllocError, Global};

/// Whether each intervention has an allowed start, each load is within its limits in every period, and no two
/// interventions of an exclusion are in progress together in a period of its
/// season. Takes the memory that `judge` takes.
pub fn keeps_rules(alloc: Global, inst: &Instance, plan: &[Option<u32>]) -> Result<bool, AllocError>
    requires { length plan.now ≡ length inst.now.names }
    ensures only_where_kept { IfOk result (λ kept. IsTrue kept → KeepsRules inst.now plan.now) }
    ensures wherever_kept { IfOk result (λ kept. KeepsRules inst.now plan.now → IsTrue kept) }
{
    inst.feasible_means_kept();
    match judge(alloc, inst, plan)? {
        Verdict::Feasible(_) => Ok(true),
        Verdict::Broken(_) => Ok(false),
    }
}
