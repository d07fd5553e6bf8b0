//! Boxes that a tree leaves open.
ghost use Rattle.std.specs.Prelude.{◌<◌, ◌-◌, length, All, IfOk, IfSome};
ghost use Rattle.lagrange_bound.specs.Boxes.{IsBox};
ghost use Rattle.lagrange_bound.specs.PricedTables.{IsPricedTable};
ghost use Rattle.certificate_tree.specs.Trees.{Tree, root_box};
ghost use Rattle.certificate_tree.specs.Ranges.{AreNodesOf};

use certificate_tree::{BoxPath, Node, has_starts};
use instance_model::Instance;
use lagrange_bound::{PriceTable, Span, worth};
use std::alloc::{AllocError, Global};

/// Whether a leaf is open: its box may have a plan, and is worth less than the best one, where there is one.
fn is_open(
    inst: &Instance,
    tables: &[PriceTable],
    spans: &[Span],
    leaf: Node,
    best: Option<i128>,
) -> bool
    requires priced { All (IsPricedTable inst.now) tables.now }
    requires spans { IsBox inst.now spans.now }
{
    let Node::Cost { list } = leaf else {
        return false;
    };
    if list as usize >= tables.len() {
        return false;
    }
    if !has_starts(inst, spans) {
        return false;
    }
    let least = worth(&tables[list as usize], spans);
    match best {
        Some(value) => least < value,
        None => true,
    }
}

/// The box of the leaf of a tree that is open and has so many open ones before it, and how many these are; where there
/// is none, how many leaves are open.
fn walk(
    alloc: Global,
    inst: &Instance,
    tables: &[PriceTable],
    nodes: &[Node],
    best: Option<i128>,
    place: usize,
) -> Result<(usize, Option<Vec<Span>>), AllocError>
    requires priced { All (IsPricedTable inst.now) tables.now }
    requires tree { (t : Tree) × AreNodesOf inst.now (length tables.now - 1) (root_box inst.now) t nodes.now }
    ensures { IfOk result (λ found. IfSome found.1 (λ spans. IsBox inst.now spans.items)) }
{
    inst.fits();
    let mut path = BoxPath::root(alloc, inst)?;
    let mut count: usize = 0;
    for node in nodes {
        if path.has_ended() {
            break;
        }
        match *node {
            Node::Split { i, last } => path.split(i, last)?,
            leaf => {
                if is_open(inst, tables, path.spans(), leaf, best) {
                    if count == place {
                        let spans = Vec::from_slice(alloc, path.spans())?;
                        return Ok((count, Some(spans)));
                    }
                    count = count.saturating_add(1);
                }
                path.leave();
            }
        }
    }
    Ok((count, None))
}

/// The box of an open leaf of a tree, if there is one: `part` parts of 2^16 of them stand before it.
pub(crate) fn open_box(
    alloc: Global,
    inst: &Instance,
    tables: &[PriceTable],
    nodes: &[Node],
    best: Option<i128>,
    part: u16,
) -> Result<Option<Vec<Span>>, AllocError>
    requires priced { All (IsPricedTable inst.now) tables.now }
    requires tree { (t : Tree) × AreNodesOf inst.now (length tables.now - 1) (root_box inst.now) t nodes.now }
    ensures { IfOk result (λ found. IfSome found (λ spans. IsBox inst.now spans.items)) }
{
    let (count, _) = walk(alloc, inst, tables, nodes, best, usize::MAX)?;
    let place = (count as u64).saturating_mul(u64::from(part)) >> 16;
    let (_, found) = walk(alloc, inst, tables, nodes, best, place as usize)?;
    Ok(found)
}
