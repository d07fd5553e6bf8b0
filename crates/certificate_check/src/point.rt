//! The test of a `point` leaf.
ghost use Rattle.std.specs.Prelude.{◌≡◌, IsTrue, IfOk, ◌↔◌};
ghost use Rattle.lagrange_bound.specs.Boxes.{IsBox};
ghost use Rattle.certificate_tree.specs.Ranges.{IsBoundInRange};
ghost use Rattle.certificate_tree.specs.Holding.{IsSingle, first_starts, PointHolds};

use crate::cost::is_at_least;
use certificate_tree::Bound;
use instance_model::{Instance, plan_of};
use lagrange_bound::{Goal, Span};
use plan_score::broken_rule;
use std::alloc::{AllocError, Global};

/// Whether each interval is a single start. Takes no memory.
pub fn is_single(spans: &[Span]) -> bool
    ensures { IsTrue result ↔ IsSingle spans.now }
{
    for span in spans {
        if span.from != span.to {
            return false;
        }
    }
    true
}

/// The first start of each interval.
pub fn starts_of(alloc: Global, spans: &[Span]) -> Result<Vec<u32>, AllocError>
    ensures { IfOk result (λ starts. starts.items ≡ first_starts spans.now) }
{
    let mut starts = Vec::new(alloc);
    for span in spans {
        starts.push(span.from)?;
    }
    Ok(starts)
}

/// Whether each interval is a single start, and the plan of these starts isn't feasible or has a value of at least the
/// bound. Asks for the value only where the plan is feasible and the bound is a number.
pub(crate) fn point_holds<G: Goal>(
    alloc: Global,
    goal: &G,
    inst: &Instance,
    bound: Bound,
    spans: &[Span],
) -> Result<bool, AllocError>
    requires bound { IsBoundInRange bound }
    requires spans { IsBox inst.now spans.now }
    ensures { IfOk result (λ b. IsTrue b ↔ PointHolds (G.value_gives goal.now) inst.now bound spans.now) }
{
    if !is_single(spans) {
        return Ok(false);
    }
    let starts = starts_of(alloc, spans)?;
    let plan = plan_of(alloc, starts.as_slice())?;
    if broken_rule(inst, plan.as_slice()).is_some() {
        return Ok(true);
    }
    if let Bound::NoPlan = bound {
        return Ok(false);
    }
    let value = goal.value(alloc, inst, starts.as_slice())?;
    Ok(is_at_least(bound, value))
}
