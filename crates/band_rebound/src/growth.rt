//! What was made of a tree so far.
ghost use Rattle.std.specs.Prelude.{◌≡◌, ◌+◌, ◌<◌, ◌^◌, ◌<ℤ◌, ℤ, List, [], ◌++◌, IsTrue, OnOk, IfSome, ◌↔◌};
ghost use Rattle.std.specs.Prelude.{unsigned_abs};
ghost use Rattle.band_rebound.specs.declared.leaf.NewLeaf.{NewLeaf};
ghost use Rattle.band_rebound.specs.Rebinding.{IsBoundOf};
ghost use Rattle.band_rebound.specs.Steps.{some_worth, top_of, TakesLeaf};

use crate::leaf::NewLeaf;
use certificate_tree::{Bound, Node};
use std::alloc::{AllocError, Global};

/// The greatest number that a bound may be.
const MOST: i128 = 1_000_000_000_000_000_000_000_000_000_000_000_000;

/// The new nodes so far, the bound that their leaves prove, and how many leaves are the same as before and how many are
/// others.
#[derive(Drop)]
pub(crate) struct Growth {
    pub(crate) nodes: Vec<Node>,
    pub(crate) bound: Bound,
    pub(crate) kept: u64,
    pub(crate) changed: u64,
}

/// What a bound is so far, and the greatest number that one may be where it is none.
fn top_of(bound: Bound) -> i128
    ensures { result ≡ top_of bound }
{
    match bound {
        Bound::NoPlan => MOST,
        Bound::Least(least) => least,
    }
}

/// Whether a number is below another one.
fn is_below(a: i128, b: i128) -> bool
    ensures { IsTrue result ↔ (a <ℤ b) }
{
    a < b
}

/// The bound of one leaf more.
fn bound_with(bound: Bound, worth: Option<i128>) -> Bound
    requires { IfSome worth (λ z. unsigned_abs z < 10 ^ 37) }
    ensures { (numbers : List ℤ) → IsBoundOf numbers bound → IsBoundOf (numbers ++ some_worth worth) result }
{
    let Some(worth) = worth else {
        return bound;
    };
    let least = top_of(bound);
    if is_below(worth, least) {
        return Bound::Least(worth);
    }
    Bound::Least(least)
}

/// Whether two leaves are the same.
fn is_same(old: Node, new: Node) -> bool
    ensures { IsTrue result ↔ (old ≡ new) }
{
    old == new
}

impl Growth {
    pub(crate) fn new(alloc: Global) -> Growth
        ensures nodes { result.nodes.items ≡ [] }
        ensures bound { IsBoundOf [] result.bound }
        ensures kept { result.kept ≡ 0 }
        ensures changed { result.changed ≡ 0 }
    {
        Growth {
            nodes: Vec::new(alloc),
            bound: Bound::NoPlan,
            kept: 0,
            changed: 0,
        }
    }

    /// Takes in a leaf that became another one, or stayed.
    pub(crate) fn take(&mut self, old: Node, new: NewLeaf) -> Result<(), AllocError>
        requires few { self.old.kept + self.old.changed < 2 ^ 63 }
        requires small { IfSome new.worth (λ z. unsigned_abs z < 10 ^ 37) }
        ensures { OnOk result (TakesLeaf old new self.old self.new) }
    {
        self.nodes.push(new.node)?;
        self.bound = bound_with(self.bound, new.worth);
        if is_same(old, new.node) {
            self.kept += 1;
        } else {
            self.changed += 1;
        }
        Ok(())
    }
}
