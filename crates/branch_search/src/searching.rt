//! The search: its contract is `IsGoneOnBy`, which says sentence by sentence what a search that goes on with a part of
//! a tree promises, and `IsSearched` for a search by price lists.
ghost use Rattle.std.specs.Prelude.{◌≡◌, ◌⊎◌, ◌+◌, ◌-◌, ◌*◌, ◌<◌, ◌≤◌, ℕ, ℤ, false, [], ◌∷◌, length, All, IfOk, OnOk};
ghost use Rattle.std.specs.Prelude.{IfSome, option_map};
ghost use Rattle.instance_model.specs.Naturals.{count_product};
ghost use Rattle.instance_model.specs.Tables.{tmax};
ghost use Rattle.lagrange_bound.specs.Prices.{IsPriceList};
ghost use Rattle.lagrange_bound.specs.PricedTables.{IsPricedTable};
ghost use Rattle.lagrange_bound.specs.Worth.{price_total};
ghost use Rattle.certificate_tree.specs.Trees.{Tree, root_box};
ghost use Rattle.certificate_tree.specs.Ranges.{IsBoundInRange, IsInRange};
ghost use Rattle.certificate_tree.specs.Validity.{IsTreeOfClaim, IsProved, IsValid, BoundBoxes};
ghost use Rattle.certificate_tree.specs.PriceTables.{table_worths, claim_by};
ghost use Rattle.certificate_lines.specs.declared.line.Bound.TheVariants.{NoPlan, Least};
ghost use Rattle.branch_search.specs.Best.{IsFeasiblePlan, Reaches};
ghost use Rattle.branch_search.specs.Splits.{split_count};
ghost use Rattle.branch_search.specs.Searched.{lists_of, IsSearched};
ghost use Rattle.branch_search.specs.Tasks.{task_of};
ghost use Rattle.branch_search.specs.Pricing.{AreSearchTables};
ghost use Rattle.branch_search.specs.Parts.{whole_part, IsGoneOnBy};
ghost use Rattle.branch_search.specs.States.{IsGrowth, NoneIsLeft};

use crate::splitting::{begin, left_worth, split_least};
use crate::tree::{Growth, finish};
use crate::{Part, SearchEnd, TreeEnd};
use certificate_tree::{
    Certificate, Node, PriceLists, Version, lists_bound_boxes, tables_bound_boxes, tables_of,
};
use instance_model::Instance;
use lagrange_bound::{Goal, PriceTable, Prices, worths_are_small};
use std::alloc::{AllocError, Global};

/// Splits leaves of a part until no worth of them is left that is below the value of the best plan, or the turns are
/// spent.
fn grow<G: Goal>(
    alloc: Global,
    goal: &G,
    inst: &Instance,
    tables: &[PriceTable],
    given: &[Node],
    incumbent: Option<&[u32]>,
    part: Part,
    turns: u32,
    growth: &mut Growth,
) -> Result<(), AllocError>
    requires tables { AreSearchTables inst.now tables.now }
    requires lawful { BoundBoxes (G.value_gives goal.now) inst.now (length tables.now - 1) (table_worths tables.now) }
    requires growth { IsGrowth (task_of (G.value_gives goal.now) inst.now tables.now given.now
        (option_map (λ given. given.now) incumbent)) part growth.old }
    requires none { growth.old.splits ≡ 0 }
    ensures state { OnOk result (IsGrowth (task_of (G.value_gives goal.now) inst.now tables.now given.now
        (option_map (λ given. given.now) incumbent.entry)) part growth.new) }
    ensures few { OnOk result (growth.new.splits ≤ turns) }
    ensures spent { OnOk result
        ((growth.new.splits ≡ turns) ⊎ NoneIsLeft growth.new.best growth.new.waiting) }
{
    while growth.splits < turns {
        if left_worth(growth).is_none() {
            break;
        }
        split_least(alloc, goal, inst, tables, given, incumbent, part, growth)?;
    }
    Ok(())
}

/// Searches for the best plan and a bound on the values of all feasible plans, given tables of prices, of which the
/// first is that of list 0, and a feasible plan or none. No feasible plan in a box may have a value below the worth of
/// the box by a table. Goes on from the tree of these nodes: its splits stay, and each of its leaves becomes the leaf
/// of its box before any other split is made. Of these the leaves of one part alone are split.
///
/// Makes at most so many splits as there are turns. Takes memory for each node and each leaf that waits; a box is made
/// afresh where it is split.
pub fn go_on_part<G: Goal>(
    alloc: Global,
    goal: &G,
    inst: &Instance,
    tables: &[PriceTable],
    nodes: &[Node],
    incumbent: Option<&[u32]>,
    part: Part,
    turns: u32,
) -> Result<SearchEnd, AllocError>
    requires some { 0 < length tables.now }
    requires few { length tables.now ≤ 17 }
    requires priced { All (IsPricedTable inst.now) tables.now }
    requires lawful { BoundBoxes (G.value_gives goal.now) inst.now (length tables.now - 1) (table_worths tables.now) }
    requires tree { (t : Tree) × IsTreeOfClaim inst.now (claim_by NoPlan tables.now nodes.now) t }
    requires incumbent { IfSome incumbent (λ given. IsFeasiblePlan inst.now given.now) }
    requires part { part.number < part.count }
    ensures proved { IfOk result (λ answer.
        IsProved (G.value_gives goal.now) inst.now (claim_by answer.bound tables.now answer.nodes)) }
    ensures gone_on { IfOk result (IsGoneOnBy (G.value_gives goal.now) inst.now (length tables.now - 1)
        (table_worths tables.now) (option_map (λ given. given.now) incumbent.entry) nodes.now part turns) }

    // The tree is in range.
    ensures tree { IfOk result (λ answer.
        (t : Tree) × IsTreeOfClaim inst.now (claim_by answer.bound tables.now answer.nodes) t) }

    // The bound is none, or at least each worth of the box of all starts.
    ensures floor { IfOk result (λ answer. (j : ℕ) → j ≤ length tables.now - 1 →
        Reaches answer.bound (table_worths tables.now (root_box inst.now) j)) }

    // It is no lower than a bound that the nodes prove, and none where they prove that there is no plan.
    ensures no_lower { IfOk result (λ answer. (b : ℤ)
        → IsProved (G.value_gives goal.now) inst.now (claim_by (Least b) tables.now nodes.now)
        → Reaches answer.bound b) }
    ensures no_plan { IfOk result (λ answer.
        IsProved (G.value_gives goal.now) inst.now (claim_by NoPlan tables.now nodes.now) → answer.bound ≡ NoPlan) }

    // A tree has two nodes more with each split.
    ensures nodes { IfOk result (λ answer. length answer.nodes ≤ length nodes.now + 2 * turns) }
{
    inst.fits();
    let mut growth = begin(alloc, goal, inst, tables, nodes, incumbent, part)?;
    grow(
        alloc,
        goal,
        inst,
        tables,
        nodes,
        incumbent,
        part,
        turns,
        &mut growth,
    )?;
    let answer = finish(alloc, growth)?;
    Ok(answer)
}

/// The same where each of these leaves may be split.
pub fn go_on<G: Goal>(
    alloc: Global,
    goal: &G,
    inst: &Instance,
    tables: &[PriceTable],
    nodes: &[Node],
    incumbent: Option<&[u32]>,
    turns: u32,
) -> Result<SearchEnd, AllocError>
    requires some { 0 < length tables.now }
    requires few { length tables.now ≤ 17 }
    requires priced { All (IsPricedTable inst.now) tables.now }
    requires lawful { BoundBoxes (G.value_gives goal.now) inst.now (length tables.now - 1) (table_worths tables.now) }
    requires tree { (t : Tree) × IsTreeOfClaim inst.now (claim_by NoPlan tables.now nodes.now) t }
    requires incumbent { IfSome incumbent (λ given. IsFeasiblePlan inst.now given.now) }
    ensures proved { IfOk result (λ answer.
        IsProved (G.value_gives goal.now) inst.now (claim_by answer.bound tables.now answer.nodes)) }
    ensures gone_on { IfOk result (IsGoneOnBy (G.value_gives goal.now) inst.now (length tables.now - 1)
        (table_worths tables.now) (option_map (λ given. given.now) incumbent.entry) nodes.now whole_part turns) }

    // The tree is in range.
    ensures tree { IfOk result (λ answer.
        (t : Tree) × IsTreeOfClaim inst.now (claim_by answer.bound tables.now answer.nodes) t) }

    // The bound is none, or at least each worth of the box of all starts.
    ensures floor { IfOk result (λ answer. (j : ℕ) → j ≤ length tables.now - 1 →
        Reaches answer.bound (table_worths tables.now (root_box inst.now) j)) }

    // It is no lower than a bound that the nodes prove, and none where they prove that there is no plan.
    ensures no_lower { IfOk result (λ answer. (b : ℤ)
        → IsProved (G.value_gives goal.now) inst.now (claim_by (Least b) tables.now nodes.now)
        → Reaches answer.bound b) }
    ensures no_plan { IfOk result (λ answer.
        IsProved (G.value_gives goal.now) inst.now (claim_by NoPlan tables.now nodes.now) → answer.bound ≡ NoPlan) }

    // A tree has two nodes more with each split.
    ensures nodes { IfOk result (λ answer. length answer.nodes ≤ length nodes.now + 2 * turns) }

    // With turns for all plans but one, the splits of the nodes counted, the search is finished.
    ensures enough { IfOk result (λ answer. count_product (length inst.now.names) (tmax inst.now)
        ≤ split_count nodes.now + turns + 1 → answer.unfinished ≡ false) }
{
    go_on_part(
        alloc,
        goal,
        inst,
        tables,
        nodes,
        incumbent,
        Part::whole(),
        turns,
    )
}

/// The same from the box of all starts: from a tree of one `cost` leaf.
pub fn search_by<G: Goal>(
    alloc: Global,
    goal: &G,
    inst: &Instance,
    tables: &[PriceTable],
    incumbent: Option<&[u32]>,
    turns: u32,
) -> Result<SearchEnd, AllocError>
    requires some { 0 < length tables.now }
    requires few { length tables.now ≤ 17 }
    requires priced { All (IsPricedTable inst.now) tables.now }
    requires lawful { BoundBoxes (G.value_gives goal.now) inst.now (length tables.now - 1) (table_worths tables.now) }
    requires incumbent { IfSome incumbent (λ given. IsFeasiblePlan inst.now given.now) }
    ensures proved { IfOk result (λ answer.
        IsProved (G.value_gives goal.now) inst.now (claim_by answer.bound tables.now answer.nodes)) }
    ensures gone_on { IfOk result (IsGoneOnBy (G.value_gives goal.now) inst.now (length tables.now - 1)
        (table_worths tables.now) (option_map (λ given. given.now) incumbent.entry) (Node.Cost 0 ∷ []) whole_part
        turns) }

    // The tree is in range.
    ensures tree { IfOk result (λ answer.
        (t : Tree) × IsTreeOfClaim inst.now (claim_by answer.bound tables.now answer.nodes) t) }

    // The bound is none, or at least each worth of the box of all starts.
    ensures floor { IfOk result (λ answer. (j : ℕ) → j ≤ length tables.now - 1 →
        Reaches answer.bound (table_worths tables.now (root_box inst.now) j)) }

    // A tree has two nodes more with each split.
    ensures nodes { IfOk result (λ answer. length answer.nodes ≤ 2 * turns + 1) }

    // With turns for all plans but one, the search is finished.
    ensures enough { IfOk result (λ answer.
        count_product (length inst.now.names) (tmax inst.now) ≤ turns + 1 → answer.unfinished ≡ false) }
{
    let leaf = [Node::Cost { list: 0 }];
    go_on(alloc, goal, inst, tables, &leaf, incumbent, turns)
}

/// A copy of the list handed in, or none.
fn list_of(alloc: Global, prices: Option<&Prices>) -> Result<Vec<Prices>, AllocError>
    ensures { IfOk result (λ lists. lists.items ≡ lists_of (option_map (λ given. given.now) prices.entry)) }
{
    let mut lists = Vec::new(alloc);
    if let Some(prices) = prices {
        lists.push(prices.clone()?)?;
    }
    Ok(lists)
}

/// Searches for the best plan and a bound on the values of all feasible plans, given a price list or none, and a
/// feasible plan or none. A copy of the list becomes that of the certificate.
///
/// Makes at most so many splits as there are turns. Takes memory for a table of each price list, and for each node and
/// each leaf that waits; a box is made afresh where it is split.
pub fn search<G: Goal>(
    alloc: Global,
    goal: &G,
    inst: &Instance,
    prices: Option<&Prices>,
    incumbent: Option<&[u32]>,
    turns: u32,
) -> Result<TreeEnd, AllocError>
    requires prices { IfSome prices (λ given. IsPriceList inst.now given.now) }
    requires incumbent { IfSome incumbent (λ given. IsFeasiblePlan inst.now given.now) }
    ensures valid { IfOk result (λ answer.
        IsValid (G.base_gives goal.now) (G.value_gives goal.now) inst.now answer.cert) }
    ensures searched { IfOk result (IsSearched (G.base_gives goal.now) (G.value_gives goal.now) inst.now
        (option_map (λ given. given.now) prices.entry) (option_map (λ given. given.now) incumbent.entry) turns) }

    // The certificate is in range where its bound is.
    ensures in_range { IfOk result (λ answer.
        IsBoundInRange answer.cert.bound → IsInRange inst.now answer.cert) }

    // So it is where no list is handed in, or the numbers of the list come to at most 4 * 10^10.
    ensures small { IfOk result (λ answer.
        IfSome prices.entry (λ given. price_total given.now ≤ 40_000_000_000) → IsInRange inst.now answer.cert) }

    // A tree has two nodes more with each split.
    ensures nodes { IfOk result (λ answer. length answer.cert.nodes ≤ 2 * turns + 1) }

    // With turns for all plans but one, the search is finished.
    ensures enough { IfOk result (λ answer.
        count_product (length inst.now.names) (tmax inst.now) ≤ turns + 1 → answer.unfinished ≡ false) }
{
    inst.fits();
    worths_are_small(goal);
    lists_bound_boxes(goal);
    tables_bound_boxes();
    let lists = list_of(alloc, prices)?;
    let tables = tables_of(alloc, goal, inst, lists.as_slice())?;
    let end = search_by(alloc, goal, inst, tables.as_slice(), incumbent, turns)?;
    let cert = Certificate {
        version: Version::Two,
        bound: end.bound,
        lists: PriceLists::from_vec(lists),
        nodes: end.nodes,
    };
    Ok(TreeEnd {
        cert,
        best: end.best,
        unfinished: end.unfinished,
    })
}
