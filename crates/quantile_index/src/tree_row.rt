//! A row of scenario sums as a height-balanced tree: contracts see the list of the sums.
ghost use Rattle.std.specs.Prelude.{◌≡◌, ◌+◌, ◌-◌, ◌*◌, ◌≤◌, length, IfOk, slice_set};
ghost use Rattle.quantile_index.specs.HeightLimit.{height_limit};
ghost use Rattle.quantile_index.specs.LateRanking.{IsTreeRow};
ghost use Rattle.quantile_index.specs.Ranking.{IsRanking};

use crate::change::{put_in, take_out};
use crate::entry::Entry;
use crate::ranks::{entry_at, rank};
use crate::row::Row;
use crate::tree::{Node, Tree};
use fixed_num::{Steps, Sum};
use std::alloc::{AllocError, Global};
use std::marker::{Brand, Model};
use std::mem;
use std::sync::ledger::{Blank, Ledger};

/// A row as a height-balanced tree of entries in order, beside the sums by scenario and room to bring all of them into
/// order at once.
///
/// A change takes the scenario's node out, gives it the new sum and puts the same node in again. A change of all sums
/// sorts them, and leaves the tree behind: the next change of one writes them over its entries, and its shape stays.
#[derive(Drop)]
pub struct TreeRow {
    sums: Vec<Sum>,
    tree: Tree,
    /// Where the tree is behind, the sums in order.
    keys: Vec<i128>,
    narrow: Vec<u64>,
    is_behind: bool,
}

impl Model for TreeRow {
    ghost use Rattle.std.specs.Prelude.{ℤ, List, length};
    ghost use Rattle.quantile_index.specs.LateRanking.{IsTreeRow};

    ghost Value = { List ℤ };

    ghost view = { λ r. r.sums.items };

    ghost invariant = { λ r. IsTreeRow r.is_behind r.tree.0 r.sums.items r.keys.items (length r.narrow.items) };
}

/// Changes the sum of scenario `k`, by scenario and in the tree, which is handed back.
fn change<L: Ledger>(tree: Tree, sums: &mut [Sum], k: u32, sum: Sum, steps: &mut Steps<L>) -> Tree
    requires ranking { IsRanking tree.0 sums.old }
    requires first { 1 ≤ k }
    requires last { k ≤ length sums.old }
    requires few { length sums.old ≤ 1024 }
    ensures sums { sums.new ≡ slice_set sums.old (k - 1) sum }
    ensures ranking { IsRanking result.0 sums.new }
    ensures cost { steps.new ≤ steps.old + 4 * height_limit (length sums.old) + 4 }
    ensures forward { steps.old ≤ steps.new }
{
    let _height = tree.height();
    let i = (k - 1) as usize;
    let old = Entry {
        sum: sums[i],
        scenario: k,
    };
    let (mut node, tree) = take_out(tree, &old, steps);
    node.set_sum(sum);
    sums[i] = sum;
    put_in(tree, node, steps)
}

/// The tree of the sums. Where it was behind, the entries of the keys are written over its own.
fn caught_up(mut tree: Tree, is_behind: bool, keys: &[i128], sums: &[Sum]) -> Tree
    requires { IsTreeRow is_behind tree.0 sums.now keys.now (length keys.now) }
    ensures { IsRanking result.0 sums.now }
{
    if is_behind {
        tree.overwrite(keys, sums);
    }
    tree
}

/// The tree of the sums. Steps are counted on a counter of its own.
fn tree_of<L: Ledger>(alloc: Global, from: &[Sum], blank: Blank) -> Result<Tree, AllocError>
    requires name { blank.name ≡ L.name }
    requires parts { blank.parts ≡ L.parts }
    requires one { blank.parts ≡ 1 }
    requires few { length from.now ≤ 1024 }
    ensures { IfOk result (λ tree. IsRanking tree.0 from.now) }
{
    let mut steps = Steps::<L>::zero(blank);
    let mut tree = Tree::leaf();
    for (i, sum) in from.iter().enumerate() {
        let entry = Entry {
            sum: *sum,
            scenario: i as u32 + 1,
        };
        let node = Node::single(alloc, entry)?;
        tree = put_in(tree, node, &mut steps);
    }
    Ok(tree)
}

impl Row for TreeRow {
    ghost use Rattle.std.specs.Prelude.{Some, ◌+◌, ◌*◌};
    ghost use Rattle.quantile_index.specs.HeightLimit.{height_limit};
    ghost use Rattle.quantile_index.specs.HeightLaws.{tree_bound_grows};

    ghost sums = { λ r. r };

    ghost most = { Some (λ n. 4 * height_limit n + 4) };

    fn make(alloc: Global, from: &[Sum]) -> Result<TreeRow, AllocError> {
        let tree = tree_of::<Brand>(alloc, from, Blank::new(1))?;
        let sums = Vec::from_slice(alloc, from)?;
        let keys = vec![in alloc; 0; from.len()]?;
        let narrow = vec![in alloc; 0; from.len()]?;
        Ok(TreeRow {
            sums,
            tree,
            keys,
            narrow,
            is_behind: false,
        })
    }

    fn len(&self) -> u32 {
        self.sums.len() as u32
    }

    fn get(&self, k: u32) -> Sum {
        self.sums[(k - 1) as usize]
    }

    fn replace<L: Ledger>(&mut self, k: u32, sum: Sum, steps: &mut Steps<L>) {
        let tree = mem::replace(&mut self.tree, Tree::leaf());
        let tree = caught_up(tree, self.is_behind, &self.keys, &self.sums);
        self.tree = change(tree, &mut self.sums, k, sum, steps);
        self.is_behind = false;
    }

    fn replace_all<L: Ledger>(&mut self, from: &[Sum], steps: &mut Steps<L>) {
        rank(from, &mut self.keys, &mut self.narrow, steps);
        self.sums.copy_from_slice(from);
        self.is_behind = true;
    }

    fn kth<L: Ledger>(&self, m: u32, steps: &mut Steps<L>) -> Sum {
        let _ = steps;
        if self.is_behind {
            entry_at(&self.sums, &self.keys[(m - 1) as usize]).sum
        } else {
            self.tree.sum_at(m - 1)
        }
    }

    ghost grows = { tree_bound_grows };
}
