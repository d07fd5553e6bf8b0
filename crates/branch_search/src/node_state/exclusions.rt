//! The exclusions that hold on a box, looked for by the intervention whose interval was changed.
ghost use Rattle.std.specs.Prelude.{◌≡◌, ℕ, ◌<◌, ◌≤◌, length, IfOk, IfSome, IfNone};
ghost use Rattle.instance_model.specs.Tables.{tmax};
ghost use Rattle.lagrange_bound.specs.Boxes.{span_of};
ghost use Rattle.branch_search.specs.node_state.Exclusions.{index_of, IsHoldingExclusion, NoExclusionHolds};
ghost use Rattle.branch_search.specs.node_state.Exclusions.{NoOtherHolds};

use certificate_tree::excl_holds;
use instance_model::Instance;
use lagrange_bound::Span;
use season_exclusion::{Named, named_lists};
use std::alloc::{AllocError, Global};
use std::marker::Model;

/// The exclusions that name each intervention: contracts see the list by intervention.
#[derive(Drop)]
pub struct ExclusionIndex {
    named: Vec<Named>,
}

impl Model for ExclusionIndex {
    ghost use Rattle.std.specs.Prelude.{ℕ, List};

    ghost Value = { List (List ℕ) };

    ghost view = { λ x. x.named.items };
}

impl ExclusionIndex {
    /// The index of an instance. Takes memory, as no other call of this crate on exclusions does.
    pub fn make(alloc: Global, inst: &Instance) -> Result<ExclusionIndex, AllocError>
        ensures { IfOk result (λ index. index ≡ index_of inst.now) }
    {
        let named = named_lists(alloc, inst)?;
        Ok(ExclusionIndex { named })
    }
}

/// An exclusion that holds on a box, whichever it is. An interval may end before it begins.
pub fn holding_exclusion(inst: &Instance, spans: &[Span]) -> Option<u32>
    requires each { length spans.now ≡ length inst.now.names }
    requires ends { (k : ℕ) → k < length inst.now.names → (span_of spans.now k).to ≤ tmax inst.now k }
    ensures holds { IfSome result (IsHoldingExclusion inst.now spans.now) }
    ensures none { IfNone result (NoExclusionHolds inst.now spans.now) }
{
    for e in 0..inst.exclusions() {
        if excl_holds(inst, spans, e) {
            return Some(e);
        }
    }
    None
}

/// The same where none holds that doesn't name intervention `i`, as after a change of its interval on a box on which
/// none held. Tests each exclusion that names it, and no other.
pub fn holding_exclusion_by(
    inst: &Instance,
    index: &ExclusionIndex,
    spans: &[Span],
    i: u32,
) -> Option<u32>
    requires each { length spans.now ≡ length inst.now.names }
    requires ends { (k : ℕ) → k < length inst.now.names → (span_of spans.now k).to ≤ tmax inst.now k }
    requires index { index.now ≡ index_of inst.now }
    requires number { i < length inst.now.names }
    requires others { NoOtherHolds inst.now spans.now i }
    ensures holds { IfSome result (IsHoldingExclusion inst.now spans.now) }
    ensures none { IfNone result (NoExclusionHolds inst.now spans.now) }
{
    let named = index.named[i as usize].as_slice();
    for e in named {
        if excl_holds(inst, spans, *e) {
            return Some(*e);
        }
    }
    None
}
