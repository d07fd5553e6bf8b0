//! The certificate where an intervention has no allowed start.
ghost use Rattle.std.specs.Prelude.{◌≡◌, IfOk};
ghost use Rattle.branch_search.specs.Startless.{empty_certificate};

use certificate_tree::{Bound, Certificate, Node, Nodes, PriceLists, Version};
use std::alloc::{AllocError, Global};

/// The certificate of one leaf, which says that this intervention has no allowed start.
pub fn empty_certificate(alloc: Global, i: u32) -> Result<Certificate, AllocError>
    ensures { IfOk result (λ certificate. certificate ≡ empty_certificate i) }
{
    let mut nodes = Vec::new(alloc);
    nodes.push(Node::Empty { i })?;
    Ok(Certificate {
        version: Version::Two,
        bound: Bound::NoPlan,
        lists: PriceLists::from_vec(Vec::new(alloc)),
        nodes: Nodes::from_vec(nodes),
    })
}
