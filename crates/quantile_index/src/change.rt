//! Nodes put into a tree and taken out of it.
ghost use Rattle.std.specs.Prelude.{◌≡◌, ◌≢◌, ◌+◌, ◌*◌, ◌^◌, ◌<◌, ◌≤◌, max, ◌∷◌, ◌++◌, length};
ghost use Rattle.quantile_index.specs.Order.{AllEntries, Inserts, IsIn, IsOrdered};
ghost use Rattle.quantile_index.specs.Tree.{DifferByAtMost};

use crate::balance::balanced;
use crate::entry::{Entry, is_before, order};
use crate::tree::{Node, Tree};
use fixed_num::Steps;
use std::cmp::Ordering;
use std::sync::ledger::Ledger;

/// The tree with a new node at its place. Each level costs at most two steps.
pub fn put_in<L: Ledger>(tree: Tree, node: Box<Node>, steps: &mut Steps<L>) -> Tree
    requires ordered { IsOrdered tree.0 }
    requires new { AllEntries (λ e. e ≢ node.value.entry) tree.0 }
    requires few { length tree.0 + 1 < 2 ^ 31 }
    ensures inserted { Inserts node.value.entry tree.0 result.0 }
    ensures ordered { IsOrdered result.0 }
    ensures not_lower { tree.1 ≤ result.1 }
    ensures at_most_one_higher { result.1 ≤ tree.1 + 1 }
    ensures cost { steps.new ≤ steps.old + 2 * tree.1 }
    ensures forward { steps.old ≤ steps.new }
{
    if tree.is_leaf() {
        return Tree::fork(Tree::leaf(), node, Tree::leaf());
    }
    let (left, top, right) = tree.into_parts();
    if is_before(&node.entry, &top.entry, steps) {
        let left = put_in(left, node, steps);
        balanced(left, top, right)
    } else {
        let right = put_in(right, node, steps);
        balanced(left, top, right)
    }
}

/// The first node, and the tree of the others.
fn take_first(tree: Tree) -> (Box<Node>, Tree)
    requires some { 0 < tree.1 }
    requires few { length tree.0 < 2 ^ 31 }
    ensures entries { tree.0 ≡ result.0.value.entry ∷ result.1.0 }
    ensures ordered { IsOrdered result.1.0 }
    ensures not_higher { result.1.1 ≤ tree.1 }
    ensures at_most_one_lower { tree.1 ≤ result.1.1 + 1 }
{
    let (left, top, right) = tree.into_parts();
    if left.is_leaf() {
        return (top, right);
    }
    let (first, left) = take_first(left);
    (first, balanced(left, top, right))
}

/// The tree of two sides, without the node that was between them.
fn joined(left: Tree, right: Tree) -> Tree
    requires ordered { IsOrdered (left.0 ++ right.0) }
    requires balanced { DifferByAtMost 1 left.1 right.1 }
    requires few { length (left.0 ++ right.0) < 2 ^ 31 }
    ensures entries { result.0 ≡ left.0 ++ right.0 }
    ensures not_lower { max left.1 right.1 ≤ result.1 }
    ensures at_most_one_higher { result.1 ≤ max left.1 right.1 + 1 }
{
    if right.is_leaf() {
        return left;
    }
    let (first, right) = take_first(right);
    balanced(left, first, right)
}

/// The node of an entry, and the tree of the others. Each level costs at most two steps.
pub fn take_out<L: Ledger>(tree: Tree, entry: &Entry, steps: &mut Steps<L>) -> (Box<Node>, Tree)
    requires ordered { IsOrdered tree.0 }
    requires present { IsIn entry.now tree.0 }
    requires few { length tree.0 < 2 ^ 31 }
    ensures entry { result.0.value.entry ≡ entry.now }
    ensures removed { Inserts entry.now result.1.0 tree.0 }
    ensures ordered { IsOrdered result.1.0 }
    ensures not_higher { result.1.1 ≤ tree.1 }
    ensures at_most_one_lower { tree.1 ≤ result.1.1 + 1 }
    ensures cost { steps.new ≤ steps.old + 2 * tree.1 }
    ensures forward { steps.old ≤ steps.new }
{
    if tree.is_leaf() {
        unreachable!()
    }
    let (left, top, right) = tree.into_parts();
    match order(entry, &top.entry, steps) {
        Ordering::Less => {
            let (node, left) = take_out(left, entry, steps);
            (node, balanced(left, top, right))
        }
        Ordering::Greater => {
            let (node, right) = take_out(right, entry, steps);
            (node, balanced(left, top, right))
        }
        Ordering::Equal => (top, joined(left, right)),
    }
}
