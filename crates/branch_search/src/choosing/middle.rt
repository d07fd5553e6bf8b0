//! The middle of an interval of several starts, where a box is split if nothing tells a better place.
ghost use Rattle.std.specs.Prelude.{ℕ, ◌<◌, ◌≤◌, length, IfSome, IfNone};
ghost use Rattle.lagrange_bound.specs.Boxes.{span_of};
ghost use Rattle.certificate_tree.specs.Trees.{IsSplit};
ghost use Rattle.certificate_tree.specs.Holding.{IsSingle};

use lagrange_bound::Span;

/// The middle of the first interval of several starts.
pub(crate) fn middle(spans: &[Span]) -> Option<(u32, u32)>
    requires few { length spans.now ≤ 1024 }
    requires order { (i : ℕ) → i < length spans.now → (span_of spans.now i).from ≤ (span_of spans.now i).to }
    ensures some { IfSome result (λ place. IsSplit spans.now place.0 place.1) }
    ensures none { IfNone result (IsSingle spans.now) }
{
    for i in 0..spans.len() {
        let span = spans[i];
        if span.from < span.to {
            return Some((i as u32, span.from + (span.to - span.from) / 2));
        }
    }
    None
}
