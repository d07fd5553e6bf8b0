//! The walk over the nodes of a tree.
ghost use Rattle.std.specs.Prelude.{◌-◌, ◌<◌, ◌≤◌, length, All, IfOk};
ghost use Rattle.lagrange_bound.specs.PricedTables.{IsPricedTable};
ghost use Rattle.certificate_lines.specs.declared.line.Bound.TheVariants.{NoPlan};
ghost use Rattle.certificate_tree.specs.Trees.{Tree};
ghost use Rattle.certificate_tree.specs.Validity.{IsTreeOfClaim};
ghost use Rattle.certificate_tree.specs.PriceTables.{table_worths, claim_by};
ghost use Rattle.band_rebound.specs.Steps.{IsGrown};

use crate::growth::Growth;
use crate::leaf::new_leaf;
use certificate_tree::{BoxPath, Node};
use instance_model::Instance;
use lagrange_bound::PriceTable;
use std::alloc::{AllocError, Global};

/// What the nodes of a tree become, in one walk.
pub(crate) fn grow(
    alloc: Global,
    inst: &Instance,
    nodes: &[Node],
    tables: &[PriceTable],
) -> Result<Growth, AllocError>
    requires some { 0 < length tables.now }
    requires few { length tables.now ≤ 17 }
    requires priced { All (IsPricedTable inst.now) tables.now }
    requires tree { (t : Tree) × IsTreeOfClaim inst.now (claim_by NoPlan tables.now nodes.now) t }
    ensures { IfOk result (IsGrown inst.now (length tables.now - 1) (table_worths tables.now) nodes.now) }
{
    inst.fits();
    let mut path = BoxPath::root(alloc, inst)?;
    let mut growth = Growth::new(alloc);
    for node in nodes {
        match *node {
            Node::Split { i, last } => {
                path.split(i, last)?;
                growth.nodes.push(*node)?;
            }
            leaf => {
                let new = new_leaf(alloc, inst, tables, path.spans(), leaf)?;
                growth.take(leaf, new)?;
                path.leave();
            }
        }
    }
    Ok(growth)
}
