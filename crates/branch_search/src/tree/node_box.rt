//! The box of a number, made afresh by the way up to the root.
ghost use Rattle.std.specs.Prelude.{◌≡◌, ◌<◌, ◌≤◌, List, length, IfOk};
ghost use Rattle.lagrange_bound.specs.declared.span.Span.{Span};
ghost use Rattle.certificate_tree.specs.declared.node.Node.TheVariants.{Split};
ghost use Rattle.certificate_tree.specs.Trees.{root_box};
ghost use Rattle.branch_search.specs.Growing.{AreBoxesOf, box_at};
ghost use Rattle.branch_search.specs.Climbing.{narrowed};

use crate::tree::cell::Cell;
use certificate_tree::{BoxPath, Node};
use instance_model::Instance;
use lagrange_bound::Span;
use std::alloc::{AllocError, Global};

/// The box of all starts.
fn root_spans(alloc: Global, inst: &Instance) -> Result<Vec<Span>, AllocError>
    ensures { IfOk result (λ spans. spans.items ≡ root_box inst.now) }
{
    let root = BoxPath::root(alloc, inst)?;
    root.spans().iter().copied().collect(alloc)
}

/// Cuts the interval of intervention `i` to what the part with number `k` of a split has of it.
fn narrow(spans: &mut [Span], split: Cell, k: usize, i: u32, last: u32)
    requires number { i < length spans.old }
    requires small { last ≤ 512 }
    ensures { spans.new ≡ narrowed spans.old split k i last }
{
    let span = spans[i as usize];
    spans[i as usize] = if split.left == k {
        Span {
            from: span.from,
            to: span.to.min(last),
        }
    } else {
        Span {
            from: span.from.max(last + 1),
            to: span.to,
        }
    };
}

/// The box of a number. Takes a step for each split above it.
pub(crate) fn box_of(
    alloc: Global,
    inst: &Instance,
    cells: &[Cell],
    number: usize,
) -> Result<Vec<Span>, AllocError>
    requires number { number < length cells.now }
    requires cells { (boxes : List (List Span)) × AreBoxesOf inst.now cells.now boxes }
    ensures { IfOk result (λ spans. (boxes : List (List Span)) → AreBoxesOf inst.now cells.now boxes
        → spans.items ≡ box_at boxes number) }
{
    inst.fits();
    let mut spans = root_spans(alloc, inst)?;
    let mut k = number;
    while k > 0 {
        let parent = cells[k].parent;
        let split = cells[parent];
        if let Node::Split { i, last } = split.node {
            narrow(&mut spans, split, k, i, last);
        }
        k = parent;
    }
    Ok(spans)
}
