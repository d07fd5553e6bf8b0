//! Boxes that are a single plan: the plan is judged, and may become the best one.
ghost use Rattle.std.specs.Prelude.{◌≡◌, map, Some, IsTrue, IfOk, OnOk, ◌↔◌};
ghost use Rattle.lagrange_bound.specs.Boxes.{IsBox};
ghost use Rattle.instance_model.specs.Rules.{IsFeasible};
ghost use Rattle.certificate_tree.specs.Trees.{AreStartsIn};
ghost use Rattle.certificate_tree.specs.Holding.{IsSingle, first_starts};
ghost use Rattle.branch_search.specs.Best.{IsReached};
ghost use Rattle.branch_search.specs.Searched.{IsPointLeaf};
ghost use Rattle.branch_search.specs.Settled.{IsImprovedIn};
ghost use Rattle.branch_search.specs.Valued.{plan_in, IsValued};

use crate::best::{Best, is_below};
use instance_model::{Instance, Starts, plan_of};
use lagrange_bound::{Goal, Span};
use plan_score::broken_rule;
use std::alloc::{AllocError, Global};

/// Whether each interval is a single start.
pub(crate) fn is_single(spans: &[Span]) -> bool
    ensures { IsTrue result ↔ IsSingle spans.now }
{
    for span in spans {
        if span.from != span.to {
            return false;
        }
    }
    true
}

/// The first start of each interval.
fn starts_of(alloc: Global, spans: &[Span]) -> Result<Vec<u32>, AllocError>
    ensures { IfOk result (λ starts. starts.items ≡ first_starts spans.now) }
{
    let mut starts = Vec::new(alloc);
    for span in spans {
        starts.push(span.from)?;
    }
    Ok(starts)
}

/// Whether there is a start in each interval.
fn are_within(spans: &[Span], starts: &[u32]) -> bool
    ensures { IsTrue result → AreStartsIn spans.now starts.now }
{
    if starts.len() != spans.len() {
        return false;
    }
    for k in 0..spans.len() {
        if starts[k] < spans[k].from || spans[k].to < starts[k] {
            return false;
        }
    }
    true
}

/// Judges a plan of a box, and keeps it where it is feasible and better than the best one.
fn take_plan<G: Goal>(
    alloc: Global,
    goal: &G,
    inst: &Instance,
    spans: &[Span],
    starts: &[u32],
    best: &mut Option<Best>,
) -> Result<(), AllocError>
    requires spans { IsBox inst.now spans.now }
    requires inside { AreStartsIn spans.now starts.now }
    requires valued { IsValued (G.value_gives goal.now) inst.now best.old }
    ensures improved { OnOk result (IsImprovedIn (G.value_gives goal.now) inst.now spans.now
        (plan_in best.old) (plan_in best.new)) }
    ensures reached { OnOk result (IsFeasible inst.now (map Some starts.now) →
        IsReached (G.value_gives goal.now) inst.now (plan_in best.new) (G.value_gives goal.now inst.now starts.now)) }
    ensures valued { OnOk result (IsValued (G.value_gives goal.now) inst.now best.new) }
{
    let _spans = spans;
    let plan = plan_of(alloc, starts)?;
    if broken_rule(inst, plan.as_slice()).is_some() {
        return Ok(());
    }
    let value = goal.value(alloc, inst, starts)?;
    if !is_below(best, value) {
        return Ok(());
    }
    let kept = starts.to_vec(alloc)?;
    *best = Some(Best {
        starts: Starts::from_vec(kept),
        value,
    });
    Ok(())
}

/// The same of any starts: those that don't lie in the box are passed over.
pub(crate) fn take_starts<G: Goal>(
    alloc: Global,
    goal: &G,
    inst: &Instance,
    spans: &[Span],
    starts: &[u32],
    best: &mut Option<Best>,
) -> Result<(), AllocError>
    requires spans { IsBox inst.now spans.now }
    requires valued { IsValued (G.value_gives goal.now) inst.now best.old }
    ensures improved { OnOk result (IsImprovedIn (G.value_gives goal.now) inst.now spans.now
        (plan_in best.old) (plan_in best.new)) }
    ensures valued { OnOk result (IsValued (G.value_gives goal.now) inst.now best.new) }
{
    if are_within(spans, starts) {
        take_plan(alloc, goal, inst, spans, starts, best)?;
    }
    Ok(())
}

/// Judges the plan of a box that is a single one, and keeps it where it is feasible and better than the best one.
pub(crate) fn take_point<G: Goal>(
    alloc: Global,
    goal: &G,
    inst: &Instance,
    spans: &[Span],
    best: &mut Option<Best>,
) -> Result<(), AllocError>
    requires spans { IsBox inst.now spans.now }
    requires single { IsSingle spans.now }
    requires valued { IsValued (G.value_gives goal.now) inst.now best.old }
    ensures improved { OnOk result (IsImprovedIn (G.value_gives goal.now) inst.now spans.now
        (plan_in best.old) (plan_in best.new)) }
    ensures reached { OnOk result
        (IsPointLeaf (G.value_gives goal.now) inst.now (plan_in best.new) spans.now) }
    ensures valued { OnOk result (IsValued (G.value_gives goal.now) inst.now best.new) }
{
    let starts = starts_of(alloc, spans)?;
    take_plan(alloc, goal, inst, spans, starts.as_slice(), best)
}
