//! A height-balanced tree of entries. Contracts see it as its entries in order, beside its height.
ghost use Rattle.std.specs.Prelude.{◌≡◌, true, false, ◌+◌, ◌^◌, ◌<◌, max, [], ◌∷◌, ◌++◌, map, length, All, IfOk};
ghost use Rattle.quantile_index.specs.Order.{IsOrdered};
ghost use Rattle.quantile_index.specs.SortKeys.{entry_of, IsKeyIn};
ghost use Rattle.quantile_index.specs.Ranking.{HasSumAt};
ghost use Rattle.quantile_index.specs.Tree.{contents, IsLow, IsSound, IsSoundLink, DifferByAtMost};

use crate::entry::Entry;
use crate::ranks::entry_at;
use fixed_num::Sum;
use std::alloc::{AllocError, Global};
use std::marker::Model;
use std::mem;

#[cycle(tree)]
#[derive(Drop)]
pub struct Tree {
    root: Link,
}

#[cycle(tree)]
#[derive(Drop)]
pub enum Link {
    Leaf,
    Fork(Box<Node>),
}

#[cycle(tree)]
#[derive(Drop)]
pub struct Node {
    left: Tree,
    right: Tree,
    pub entry: Entry,
    /// How many entries the node and its sides have.
    size: u32,
    height: u32,
}

impl Model for Tree {
    ghost use Rattle.std.specs.Prelude.{ℕ, List, length};
    ghost use Rattle.quantile_index.specs.declared.entry.Entry.{Entry};

    ghost Value = { List Entry × ℕ };

    ghost use Rattle.quantile_index.specs.Tree.{contents, IsSoundLink};
    ghost use Rattle.std.proofs.Common.{arith, length-append};

    ghost view = { λ a. contents a.root };

    ghost invariant = { λ a. IsSoundLink a.root };

    ghost size = { λ d. length d.0 };

    ghost size_decreases = { λ a h. Prim.grind (arith, length-append) };
}

impl Tree {
    pub fn leaf() -> Tree
        ensures { result ≡ ([], 0) }
    {
        Tree { root: Link::Leaf }
    }

    /// The tree with this node at the top.
    pub fn fork(left: Tree, mut top: Box<Node>, right: Tree) -> Tree
        requires ordered { IsOrdered (left.0 ++ top.value.entry ∷ right.0) }
        requires balanced { DifferByAtMost 1 left.1 right.1 }
        requires few { length (left.0 ++ top.value.entry ∷ right.0) < 2 ^ 31 }
        ensures entries { result.0 ≡ left.0 ++ top.value.entry ∷ right.0 }
        ensures height { result.1 ≡ max left.1 right.1 + 1 }
    {
        top.put_sides(left, right);
        Tree {
            root: Link::Fork(top),
        }
    }

    pub fn height(&self) -> u32
        ensures value { result ≡ self.now.1 }
        ensures low { IsLow self.now.1 (length self.now.0) }
    {
        match &self.root {
            Link::Leaf => 0,
            Link::Fork(node) => node.height,
        }
    }

    pub fn is_leaf(&self) -> bool
        ensures leaf { result ≡ true → self.now ≡ ([], 0) }
        ensures fork { result ≡ false → 0 < self.now.1 }
    {
        match &self.root {
            Link::Leaf => true,
            Link::Fork(_) => false,
        }
    }

    /// How many entries the tree has.
    pub fn size(&self) -> u32
        ensures { result ≡ length self.now.0 }
    {
        match &self.root {
            Link::Leaf => 0,
            Link::Fork(node) => node.size,
        }
    }

    /// The sum of the entry with `index` entries before it.
    pub fn sum_at(&self, index: u32) -> Sum
        requires { index < length self.now.0 }
        ensures { HasSumAt self.now.0 index result }
    {
        match &self.root {
            Link::Leaf => unreachable!(),
            Link::Fork(node) => {
                let before = node.left.size();
                if index < before {
                    node.left.sum_at(index)
                } else if index == before {
                    node.entry.sum
                } else {
                    node.right.sum_at(index - before - 1)
                }
            }
        }
    }

    /// Writes the entries of keys of these sums over those of the tree, whose shape stays.
    pub fn overwrite(&mut self, keys: &[i128], from: &[Sum])
        requires each { length keys.now ≡ length self.old.0 }
        requires read { All (IsKeyIn from.now) keys.now }
        requires ordered { IsOrdered (map entry_of keys.now) }
        ensures entries { self.new.0 ≡ map entry_of keys.now }
        ensures height { self.new.1 ≡ self.old.1 }
    {
        match &mut self.root {
            Link::Leaf => {}
            Link::Fork(node) => {
                let before = node.left.size() as usize;
                node.left.overwrite(&keys[..before], from);
                node.entry = entry_at(from, &keys[before]);
                node.right.overwrite(&keys[before + 1..], from);
            }
        }
    }

    /// The node at the top, between its two sides.
    pub fn into_parts(self) -> (Tree, Box<Node>, Tree)
        requires { 0 < self.1 }
        ensures entries { self.0 ≡ result.0.0 ++ result.1.value.entry ∷ result.2.0 }
        ensures ordered { IsOrdered (result.0.0 ++ result.1.value.entry ∷ result.2.0) }
        ensures height { self.1 ≡ max result.0.1 result.2.1 + 1 }
        ensures balanced { DifferByAtMost 1 result.0.1 result.2.1 }
    {
        match self.root {
            Link::Leaf => unreachable!(),
            Link::Fork(mut top) => {
                let (left, right) = top.take_sides();
                (left, top, right)
            }
        }
    }
}

impl Node {
    /// A node without sides.
    pub fn single(alloc: Global, entry: Entry) -> Result<Box<Node>, AllocError>
        ensures { IfOk result (λ node. node.value.entry ≡ entry) }
    {
        let node = Box::new(
            alloc,
            Node {
                left: Tree::leaf(),
                right: Tree::leaf(),
                entry,
                size: 1,
                height: 1,
            },
        )?;
        Ok(node)
    }

    pub fn set_sum(&mut self, sum: Sum)
        ensures sum { self.new.entry.sum ≡ sum }
        ensures scenario { self.new.entry.scenario ≡ self.old.entry.scenario }
        ensures rest { self.new ≡ record self.old { entry = self.new.entry } }
    {
        self.entry.sum = sum;
    }

    /// Takes the two sides out.
    fn take_sides(&mut self) -> (Tree, Tree)
        ensures left { result.0 ≡ self.old.left }
        ensures right { result.1 ≡ self.old.right }
        ensures entry { self.new.entry ≡ self.old.entry }
    {
        let left = mem::replace(&mut self.left, Tree::leaf());
        let right = mem::replace(&mut self.right, Tree::leaf());
        (left, right)
    }

    /// Puts two sides in, and sets size and height.
    fn put_sides(&mut self, left: Tree, right: Tree)
        requires ordered { IsOrdered (left.0 ++ self.old.entry ∷ right.0) }
        requires balanced { DifferByAtMost 1 left.1 right.1 }
        requires few { length (left.0 ++ self.old.entry ∷ right.0) < 2 ^ 31 }
        ensures left { self.new.left ≡ left }
        ensures right { self.new.right ≡ right }
        ensures entry { self.new.entry ≡ self.old.entry }
        ensures sound { IsSound self.new }
    {
        self.height = left.height().max(right.height()) + 1;
        self.size = left.size() + right.size() + 1;
        self.left = left;
        self.right = right;
    }
}
