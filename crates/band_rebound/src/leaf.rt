//! What a leaf becomes on its box.
ghost use Rattle.std.specs.Prelude.{◌≡◌, ℕ, ◌-◌, ◌<◌, ◌≤◌, ◌^◌, length, All, IsTrue, IfOk, IfSome, IfNone, ◌↔◌};
ghost use Rattle.std.specs.Prelude.{unsigned_abs};
ghost use Rattle.lagrange_bound.specs.Boxes.{IsBox, HasStarts};
ghost use Rattle.lagrange_bound.specs.PricedTables.{IsPricedTable};
ghost use Rattle.certificate_tree.specs.Ranges.{IsLeafInRange};
ghost use Rattle.certificate_tree.specs.Holding.{Worths};
ghost use Rattle.certificate_tree.specs.PriceTables.{table_worths};
ghost use Rattle.band_rebound.specs.Rebinding.{IsFirstEmpty, IsHeld, worths_at};
ghost use Rattle.band_rebound.specs.Steps.{some_worth, IsNewLeaf};

use certificate_check::{is_single, starts_of};
use certificate_tree::{Node, band_holds, excl_holds, greatest_worth, has_start};
use instance_model::{Instance, plan_of};
use lagrange_bound::{Goal, PriceTable, RiskGoal, Span};
use plan_score::broken_rule;
use std::alloc::{AllocError, Global};

/// A leaf, and what it is worth, if it is worth something.
#[derive(Clone, Copy)]
pub(crate) struct NewLeaf {
    pub(crate) node: Node,
    pub(crate) worth: Option<i128>,
}

/// The first intervention whose interval has no allowed start.
fn first_empty(inst: &Instance, spans: &[Span]) -> Option<u32>
    requires { length spans.now ≡ length inst.now.names }
    ensures some { IfSome result (IsFirstEmpty inst.now spans.now) }
    ensures none { IfNone result (HasStarts inst.now spans.now) }
{
    for i in 0..inst.interventions() {
        if !has_start(inst, i, spans[i as usize]) {
            return Some(i);
        }
    }
    None
}

/// Whether a leaf is a `band` or an `excl` that holds.
fn is_held(inst: &Instance, spans: &[Span], leaf: Node) -> bool
    requires spans { IsBox inst.now spans.now }
    requires leaf { (lists : ℕ) × IsLeafInRange inst.now lists leaf }
    ensures { IsTrue result ↔ IsHeld inst.now spans.now leaf }
{
    match leaf {
        Node::Band { c, t, side } => band_holds(inst, spans, c, t, side),
        Node::Excl { e } => excl_holds(inst, spans, e),
        Node::Split { .. } | Node::Cost { .. } | Node::Point | Node::Empty { .. } => false,
    }
}

/// The leaf of a box of single starts: it is worth the score of its plan, where that is feasible.
fn point_leaf(alloc: Global, inst: &Instance, spans: &[Span]) -> Result<NewLeaf, AllocError>
    requires { IsBox inst.now spans.now }
    ensures node { IfOk result (λ new. new.node ≡ Node.Point) }
    ensures worth { IfOk result (λ new. (worths : Worths) →
        worths_at inst.now worths spans.now Node.Point ≡ some_worth new.worth) }
    ensures small { IfOk result (λ new. IfSome new.worth (λ z. unsigned_abs z < 10 ^ 37)) }
{
    let starts = starts_of(alloc, spans)?;
    let plan = plan_of(alloc, starts.as_slice())?;
    if broken_rule(inst, plan.as_slice()).is_some() {
        return Ok(NewLeaf {
            node: Node::Point,
            worth: None,
        });
    }
    let score = RiskGoal.value(alloc, inst, starts.as_slice())?;
    Ok(NewLeaf {
        node: Node::Point,
        worth: Some(score),
    })
}

/// What a leaf becomes.
pub(crate) fn new_leaf(
    alloc: Global,
    inst: &Instance,
    tables: &[PriceTable],
    spans: &[Span],
    old: Node,
) -> Result<NewLeaf, AllocError>
    requires some { 0 < length tables.now }
    requires few { length tables.now ≤ 17 }
    requires priced { All (IsPricedTable inst.now) tables.now }
    requires spans { IsBox inst.now spans.now }
    requires leaf { IsLeafInRange inst.now (length tables.now - 1) old }
    ensures { IfOk result (IsNewLeaf inst.now (length tables.now - 1) (table_worths tables.now) spans.now old) }
{
    if let Some(i) = first_empty(inst, spans) {
        return Ok(NewLeaf {
            node: Node::Empty { i },
            worth: None,
        });
    }
    if is_held(inst, spans, old) {
        return Ok(NewLeaf {
            node: old,
            worth: None,
        });
    }
    if is_single(spans) {
        return point_leaf(alloc, inst, spans);
    }
    let (list, worth) = greatest_worth(tables, spans);
    Ok(NewLeaf {
        node: Node::Cost { list },
        worth: Some(worth),
    })
}
