//! Nodes of a tree in pre-order: contracts see the list.
ghost use Rattle.std.specs.Prelude.{◌≡◌};

use certificate_lines::Side;
use std::marker::Model;

/// A node of a tree of boxes: a split, or a leaf.
#[derive(Clone, Copy, Debug, PartialEq, Eq)]
pub enum Node {
    /// The left part has the starts of intervention `i` up to `last`, the right part those after it.
    Split { i: u32, last: u32 },
    /// Each interval has an allowed start, the bound is a number, and the worth of
    /// the box by a price list is at least it.
    Cost { list: u32 },
    /// The box is a single plan, which isn't feasible or has a value of at least the bound.
    Point,
    /// Each interval has an allowed start, and whatever they are, the load of resource `c` in
    /// period `t` leaves the limit of this side.
    Band { c: u32, t: u32, side: Side },
    /// Each pair of allowed starts, one of each of the two interventions of exclusion
    /// `e`, meets in a period of its season.
    Excl { e: u32 },
    /// The interval of intervention `i` has no allowed start.
    Empty { i: u32 },
}

/// Nodes in the order of a tree: a split, then its left part, then its right part.
#[derive(Drop)]
pub struct Nodes {
    items: Vec<Node>,
}

impl Model for Nodes {
    ghost use Rattle.std.specs.Prelude.{List};
    ghost use Rattle.certificate_tree.specs.declared.node.Node.{Node};

    ghost Value = { List Node };

    ghost view = { λ n. n.items.items };
}

impl Nodes {
    pub fn as_slice(&self) -> &[Node]
        ensures { result.now ≡ self.now }
    {
        self.items.as_slice()
    }

    pub fn from_vec(items: Vec<Node>) -> Nodes
        ensures { result ≡ items.items }
    {
        Nodes { items }
    }

    pub fn into_vec(self) -> Vec<Node>
        ensures { result.items ≡ self }
    {
        let Nodes { items } = self;
        items
    }
}
