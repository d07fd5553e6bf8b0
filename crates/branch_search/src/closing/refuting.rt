//! A leaf that refutes the current box: an interval without a start, a band, or an exclusion.
ghost use Rattle.std.specs.Prelude.{◌≡◌, ℕ, ◌<◌, ◌≤◌, length, slice_set, IsTrue, IfSome, IfNone};
ghost use Rattle.instance_model.specs.Tables.{tmax};
ghost use Rattle.lagrange_bound.specs.Boxes.{IsBox, HasStarts, span_of};
ghost use Rattle.certificate_tree.specs.Ranges.{IsLeafInRange};
ghost use Rattle.branch_search.specs.node_state.Bands.{IsPart};
ghost use Rattle.branch_search.specs.Boxes.{IsUnrefuted};
ghost use Rattle.branch_search.specs.CurrentBoxes.{IsCurrentBox};
ghost use Rattle.branch_search.specs.Refuting.{IsEmptyIn, IsRefuting};

use crate::node_state::{Band, holding_exclusion, holding_exclusion_by, others_are_kept};
use crate::splitting::CurrentBox;
use certificate_tree::{Node, band_holds, excl_holds, has_start};
use instance_model::Instance;
use lagrange_bound::Span;

/// The first intervention whose interval has no allowed start.
fn first_empty(inst: &Instance, spans: &[Span]) -> Option<u32>
    requires { length spans.now ≡ length inst.now.names }
    ensures some { IfSome result (IsEmptyIn inst.now spans.now) }
    ensures none { IfNone result (HasStarts inst.now spans.now) }
{
    for i in 0..inst.interventions() {
        if !has_start(inst, i, spans[i as usize]) {
            return Some(i);
        }
    }
    None
}

/// The leaf of a band.
fn band_leaf(band: Band) -> Node
    ensures { result ≡ Node.Band band.c band.t band.side }
{
    Node::Band {
        c: band.c,
        t: band.t,
        side: band.side,
    }
}

/// A leaf that refutes the current box: of its first interval without a start, of a band, or of an exclusion.
fn refuting_leaf(inst: &Instance, current: &CurrentBox) -> Option<Node>
    requires { IsCurrentBox inst.now current.now }
    ensures some { IfSome result (IsRefuting inst.now current.now.boxes.spans) }
    ensures none { IfNone result (IsUnrefuted inst.now current.now.boxes.spans) }
{
    let spans = current.boxes.spans();
    if let Some(i) = first_empty(inst, spans) {
        return Some(Node::Empty { i });
    }
    if let Some(band) = current.boxes.holding_band(inst) {
        return Some(band_leaf(band));
    }
    match holding_exclusion(inst, spans) {
        Some(e) => Some(Node::Excl { e }),
        None => None,
    }
}

/// Whether a leaf is a `band` or an `excl` that holds.
fn is_held(inst: &Instance, spans: &[Span], leaf: Node) -> bool
    requires spans { IsBox inst.now spans.now }
    requires leaf { (lists : ℕ) × IsLeafInRange inst.now lists leaf }
    ensures { IsTrue result → IsRefuting inst.now spans.now leaf }
{
    match leaf {
        Node::Band { c, t, side } => band_holds(inst, spans, c, t, side),
        Node::Excl { e } => excl_holds(inst, spans, e),
        Node::Split { .. } | Node::Cost { .. } | Node::Point | Node::Empty { .. } => false,
    }
}

/// The leaf that was given of the current box, where it is a `band` or an `excl` that holds, and else one that refutes
/// the box.
pub(crate) fn leaf_over(inst: &Instance, current: &CurrentBox, given: Node) -> Option<Node>
    requires current { IsCurrentBox inst.now current.now }
    requires spans { IsBox inst.now current.now.boxes.spans }
    requires given { (lists : ℕ) × IsLeafInRange inst.now lists given }
    ensures some { IfSome result (IsRefuting inst.now current.now.boxes.spans) }
    ensures none { IfNone result (IsUnrefuted inst.now current.now.boxes.spans) }
{
    if is_held(inst, current.boxes.spans(), given) {
        return Some(given);
    }
    refuting_leaf(inst, current)
}

/// A leaf that refutes the current box, where no leaf refuted it while the interval of intervention `i` was `whole`, of
/// which it is a part now. Tests that interval, the bands in the periods of its runs, and the exclusions that name the
/// intervention.
pub(crate) fn refuting_part(
    inst: &Instance,
    current: &CurrentBox,
    i: u32,
    whole: Span,
) -> Option<Node>
    requires current { IsCurrentBox inst.now current.now }
    requires number { i < length inst.now.names }
    requires end { whole.to ≤ tmax inst.now i }
    requires part { IsPart (span_of current.now.boxes.spans i) whole }
    requires before { IsUnrefuted inst.now (slice_set current.now.boxes.spans i whole) }
    ensures some { IfSome result (IsRefuting inst.now current.now.boxes.spans) }
    ensures none { IfNone result (IsUnrefuted inst.now current.now.boxes.spans) }
{
    others_are_kept();
    let spans = current.boxes.spans();
    if !has_start(inst, i, spans[i as usize]) {
        return Some(Node::Empty { i });
    }
    if let Some(band) = current.boxes.holding_band_by(inst, i, whole) {
        return Some(band_leaf(band));
    }
    match holding_exclusion_by(inst, &current.index, spans, i) {
        Some(e) => Some(Node::Excl { e }),
        None => None,
    }
}
