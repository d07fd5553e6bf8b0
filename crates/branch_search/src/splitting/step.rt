//! One step of a search: the leaf of least worth is split.
ghost use Rattle.std.specs.Prelude.{◌≡◌, ◌<◌, ◌+◌, ◌-◌, ◌^◌, ◌++◌, ℕ, ℤ, List, length, OnOk, IfSome, IfNone};
ghost use Rattle.std.specs.Prelude.{option_map, unsigned_abs};
ghost use Rattle.certificate_tree.specs.PriceTables.{table_worths};
ghost use Rattle.certificate_tree.specs.Validity.{BoundBoxes};
ghost use Rattle.branch_search.specs.Tasks.{task_of};
ghost use Rattle.branch_search.specs.Pricing.{AreSearchTables};
ghost use Rattle.branch_search.specs.Valued.{IsSmallValue};
ghost use Rattle.branch_search.specs.Aside.{IsLeastWorth};
ghost use Rattle.branch_search.specs.States.{IsGrowth, IsLeftWorth, NoneIsLeft, IsKept};

use crate::Part;
use crate::best::{Best, is_below};
use crate::splitting::settling::part;
use crate::tree::{Growth, Waiting, await_leaf, box_of, lesser, split_cell};
use certificate_tree::Node;
use instance_model::Instance;
use lagrange_bound::{Goal, PriceTable};
use std::alloc::{AllocError, Global};

/// The least worth of some entries, where it is below the value of the best plan, or there is no such plan.
fn left_below(best: &Option<Best>, least: Option<i128>) -> Option<i128>
    requires best { IsSmallValue best.now }
    requires small { IfSome least (λ z. unsigned_abs z < 10 ^ 37) }
    ensures some { (entries : List (ℤ × ℕ)) → IsLeastWorth least entries
        → IfSome result (IsLeftWorth best.now entries) }
    ensures none { (entries : List (ℤ × ℕ)) → IsLeastWorth least entries
        → IfNone result (NoneIsLeft best.now entries) }
{
    let worth = least?;
    if is_below(best, worth) {
        Some(worth)
    } else {
        None
    }
}

/// The least worth of a leaf that waits, if one does.
fn waiting_worth(waiting: &Waiting) -> Option<i128>
    ensures { IsLeastWorth result waiting.now }
{
    match waiting.least() {
        Some((worth, _)) => Some(worth),
        None => None,
    }
}

/// The least worth of a leaf that waits, where it is below the value of the best plan, or there is no such plan.
pub(crate) fn left_worth(growth: &Growth) -> Option<i128>
    requires { IsKept growth.now }
    ensures some { IfSome result (IsLeftWorth growth.now.best growth.now.waiting) }
    ensures none { IfNone result (NoneIsLeft growth.now.best growth.now.waiting) }
{
    left_below(&growth.best, waiting_worth(&growth.waiting))
}

/// The same of the leaves that wait and those that are set aside.
pub(crate) fn open_worth(growth: &Growth) -> Option<i128>
    requires { IsKept growth.now }
    ensures some { (aside : List (ℤ × ℕ)) → IsLeastWorth growth.now.aside aside
        → IfSome result (IsLeftWorth growth.now.best (growth.now.waiting ++ aside)) }
    ensures none { (aside : List (ℤ × ℕ)) → IsLeastWorth growth.now.aside aside
        → IfNone result (NoneIsLeft growth.now.best (growth.now.waiting ++ aside)) }
{
    let waiting = waiting_worth(&growth.waiting);
    left_below(&growth.best, lesser(waiting, growth.aside))
}

/// Splits the leaf of least worth.
pub(crate) fn split_least<G: Goal>(
    alloc: Global,
    goal: &G,
    inst: &Instance,
    tables: &[PriceTable],
    given: &[Node],
    incumbent: Option<&[u32]>,
    chosen: Part,
    growth: &mut Growth,
) -> Result<(), AllocError>
    requires tables { AreSearchTables inst.now tables.now }
    requires lawful { BoundBoxes (G.value_gives goal.now) inst.now (length tables.now - 1) (table_worths tables.now) }
    requires growth { IsGrowth (task_of (G.value_gives goal.now) inst.now tables.now given.now
        (option_map (λ given. given.now) incumbent)) chosen growth.old }
    requires left { (z : ℤ) × IsLeftWorth growth.old.best growth.old.waiting z }
    requires turns { growth.old.splits < 4_294_967_295 }
    ensures state { OnOk result (IsGrowth (task_of (G.value_gives goal.now) inst.now tables.now given.now
        (option_map (λ given. given.now) incumbent.entry)) chosen growth.new) }
    ensures one { OnOk result (growth.new.splits ≡ growth.old.splits + 1) }
{
    let _given = given;
    let _incumbent = incumbent;
    let _chosen = chosen;
    let Some((_, number)) = growth.waiting.pop() else {
        return Ok(());
    };
    let spans = box_of(alloc, inst, growth.cells.as_slice(), number)?;
    growth.current.boxes.set_spans(inst, &spans);
    let current = &mut growth.current;
    let chooser = &mut growth.chooser;
    let best = &mut growth.best;
    let Some(parts) = part(alloc, goal, inst, tables, current, chooser, best)? else {
        return Ok(());
    };
    let (left, right) = (parts.left, parts.right);
    split_cell(
        &mut growth.cells,
        number,
        parts.i,
        parts.last,
        left.node,
        right.node,
    )?;
    let count = growth.cells.len();
    await_leaf(&mut growth.waiting, left.worth, count - 2)?;
    await_leaf(&mut growth.waiting, right.worth, count - 1)?;
    growth.splits += 1;
    Ok(())
}
