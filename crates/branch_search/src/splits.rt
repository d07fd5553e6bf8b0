//! The splits of a certificate.
ghost use Rattle.std.specs.Prelude.{◌≡◌, ◌≤◌, [], ◌∷◌};
ghost use Rattle.branch_search.specs.Splits.{split_count};

use certificate_tree::Node;

/// How many nodes are splits.
pub fn split_count(nodes: &[Node]) -> u64
    ensures { result ≡ split_count nodes.now }
{
    let mut count: u64 = 0;
    for node in nodes {
        count += split_of(*node);
    }
    count
}

/// 1 for a split, and 0 for a leaf.
fn split_of(node: Node) -> u64
    ensures value { result ≡ split_count (node ∷ []) }
    ensures small { result ≤ 1 }
{
    match node {
        Node::Split { .. } => 1,
        _ => 0,
    }
}
