//! Rotations: a node and two sides put together to a balanced tree.
ghost use Rattle.std.specs.Prelude.{◌≡◌, ◌+◌, ◌^◌, ◌<◌, ◌≤◌, ◌∷◌, ◌++◌, length};
ghost use Rattle.quantile_index.specs.Order.{IsOrdered};
ghost use Rattle.quantile_index.specs.Tree.{DifferByAtMost, IsBalancedHeight};

use crate::tree::{Node, Tree};

/// A rotation to the right, single or double: the left side is two levels higher.
fn rotated_right(left: Tree, top: Box<Node>, right: Tree) -> Tree
    requires ordered { IsOrdered (left.0 ++ top.value.entry ∷ right.0) }
    requires two_higher { left.1 ≡ right.1 + 2 }
    requires few { length (left.0 ++ top.value.entry ∷ right.0) < 2 ^ 31 }
    ensures entries { result.0 ≡ left.0 ++ top.value.entry ∷ right.0 }
    ensures not_lower { left.1 ≤ result.1 }
    ensures at_most_one_higher { result.1 ≤ left.1 + 1 }
{
    let (outer, pivot, inner) = left.into_parts();
    if outer.height() >= inner.height() {
        let side = Tree::fork(inner, top, right);
        return Tree::fork(outer, pivot, side);
    }
    let (low, middle, high) = inner.into_parts();
    let left = Tree::fork(outer, pivot, low);
    let right = Tree::fork(high, top, right);
    Tree::fork(left, middle, right)
}

/// A rotation to the left, single or double: the right side is two levels higher.
fn rotated_left(left: Tree, top: Box<Node>, right: Tree) -> Tree
    requires ordered { IsOrdered (left.0 ++ top.value.entry ∷ right.0) }
    requires two_higher { right.1 ≡ left.1 + 2 }
    requires few { length (left.0 ++ top.value.entry ∷ right.0) < 2 ^ 31 }
    ensures entries { result.0 ≡ left.0 ++ top.value.entry ∷ right.0 }
    ensures not_lower { right.1 ≤ result.1 }
    ensures at_most_one_higher { result.1 ≤ right.1 + 1 }
{
    let (inner, pivot, outer) = right.into_parts();
    if outer.height() >= inner.height() {
        let side = Tree::fork(left, top, inner);
        return Tree::fork(side, pivot, outer);
    }
    let (low, middle, high) = inner.into_parts();
    let left = Tree::fork(left, top, low);
    let right = Tree::fork(high, pivot, outer);
    Tree::fork(left, middle, right)
}

/// The tree of a node between two sides, one of which may be two levels higher.
pub fn balanced(left: Tree, top: Box<Node>, right: Tree) -> Tree
    requires ordered { IsOrdered (left.0 ++ top.value.entry ∷ right.0) }
    requires near { DifferByAtMost 2 left.1 right.1 }
    requires few { length (left.0 ++ top.value.entry ∷ right.0) < 2 ^ 31 }
    ensures entries { result.0 ≡ left.0 ++ top.value.entry ∷ right.0 }
    ensures height { IsBalancedHeight left.1 right.1 result.1 }
{
    let low = left.height();
    let high = right.height();
    if low > high + 1 {
        rotated_right(left, top, right)
    } else if high > low + 1 {
        rotated_left(left, top, right)
    } else {
        Tree::fork(left, top, right)
    }
}
