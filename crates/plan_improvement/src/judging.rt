//! A plan of starts is judged from scratch.
ghost use Rattle.std.specs.Prelude.{◌≡◌, length, map, Some, IfOk, IfSome, IfNone};
ghost use Rattle.instance_model.specs.Rules.{IsFeasible};
ghost use Rattle.plan_improvement.specs.Improving.{IsJudged};

use instance_model::{Instance, Starts, plan_of};
use plan_score::{Values, Verdict, judge};
use std::alloc::{AllocError, Global};

/// A plan that keeps every rule, by its starts, and its values from scratch.
#[derive(Drop)]
pub struct Judged {
    pub starts: Starts,
    pub values: Values,
}

/// The values of a plan from scratch, where it keeps every rule.
pub(crate) fn kept_values(
    alloc: Global,
    inst: &Instance,
    starts: &[u32],
) -> Result<Option<Values>, AllocError>
    requires { length starts.now ≡ length inst.now.names }
    ensures kept { IfOk result (λ values. IfSome values (IsJudged inst.now starts.now)) }
    ensures broken { IfOk result (λ values. IfNone values (¬ IsFeasible inst.now (map Some starts.now))) }
{
    let plan = plan_of(alloc, starts)?;
    match judge(alloc, inst, plan.as_slice())? {
        Verdict::Feasible(values) => Ok(Some(values)),
        Verdict::Broken(_) => Ok(None),
    }
}
