//! The tree that a search begins with.
ghost use Rattle.std.specs.Prelude.{◌≡◌, ℕ, ◌+◌, ◌-◌, ◌*◌, ◌<◌, ◌≤◌, length, All, IfOk, IfSome, None, option_map};
ghost use Rattle.lagrange_bound.specs.Goals.{risk_value};
ghost use Rattle.lagrange_bound.specs.PricedTables.{IsPricedTable};
ghost use Rattle.certificate_lines.specs.declared.line.Bound.TheVariants.{NoPlan};
ghost use Rattle.certificate_tree.specs.Trees.{Tree};
ghost use Rattle.certificate_tree.specs.Validity.{IsTreeOfClaim, BoundBoxes};
ghost use Rattle.certificate_tree.specs.PriceTables.{table_worths, claim_by};
ghost use Rattle.branch_search.specs.Splits.{split_count};
ghost use Rattle.refined_search.specs.Steps.{IsBegun};

use band_rebound::{ReboundTree, rebound_by};
use certificate_tree::{Bound, Node, Nodes};
use instance_model::Instance;
use lagrange_bound::PriceTable;
use refined_check::RefinedCertificate;
use std::alloc::{AllocError, Global};

/// One `cost` leaf over all starts.
pub(crate) fn whole(
    alloc: Global,
    inst: &Instance,
    tables: &[PriceTable],
) -> Result<ReboundTree, AllocError>
    ensures { IfOk result (IsBegun inst.now tables.now None) }
{
    let nodes = vec![in alloc; Node::Cost { list: 0 }]?;
    Ok(ReboundTree {
        bound: Bound::NoPlan,
        nodes: Nodes::from_vec(nodes),
        kept: 0,
        changed: 0,
    })
}

/// What the tree of the old certificate becomes by these tables; one `cost` leaf over all starts where there is none.
pub(crate) fn begin(
    alloc: Global,
    inst: &Instance,
    cert: Option<&RefinedCertificate>,
    tables: &[PriceTable],
) -> Result<ReboundTree, AllocError>
    requires some { 0 < length tables.now }
    requires few { length tables.now ≤ 17 }
    requires priced { All (IsPricedTable inst.now) tables.now }
    requires lawful { BoundBoxes risk_value inst.now (length tables.now - 1) (table_worths tables.now) }
    requires cert { IfSome cert
        (λ old. (t : Tree) × IsTreeOfClaim inst.now (claim_by NoPlan tables.now old.now.nodes) t) }
    ensures { IfOk result (IsBegun inst.now tables.now (option_map (λ old. old.now) cert.entry)) }
{
    match cert {
        Some(cert) => {
            let tree = rebound_by(alloc, inst, cert.nodes.as_slice(), tables)?;
            Ok(tree)
        }
        None => {
            let tree = whole(alloc, inst, tables)?;
            Ok(tree)
        }
    }
}

/// How many splits a tree has more than another one: each adds two nodes.
pub(crate) fn new_splits(old: &[Node], new: &[Node], turns: u32) -> u32
    requires old { length old.now ≡ 2 * split_count old.now + 1 }
    requires new { length new.now ≡ 2 * split_count new.now + 1 }
    requires more { split_count old.now ≤ split_count new.now }
    requires few { split_count new.now ≤ split_count old.now + turns }
    ensures { split_count new.now ≡ split_count old.now + result }
{
    ((new.len() - old.len()) / 2) as u32
}
