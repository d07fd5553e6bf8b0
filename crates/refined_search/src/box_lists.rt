//! Price lists that are raised over boxes which short searches leave open.
ghost use Rattle.std.specs.Prelude.{◌<◌, ◌≤◌, length, IfOk, IfSome, OnOk};
ghost use Rattle.lagrange_bound.specs.Boxes.{IsBox};
ghost use Rattle.branch_search.specs.Best.{IsFeasiblePlan};
ghost use Rattle.refined_search.specs.Steps.{MayStand, AddsAtMostOne, AddsSearched};

use crate::begin::whole;
use crate::lists::add_list;
use crate::open_box::open_box;
use crate::order::is_in_order;
use branch_search::go_on;
use certificate_tree::tables_bound_boxes;
use group_ladder::raise_groups_in;
use instance_model::{Instance, Starts};
use lagrange_bound::{Goal, RiskGoal, Span};
use refined_check::{refined_lists_bound_boxes, refined_tables_of};
use refined_prices::RefinedPrices;
use std::alloc::{AllocError, Global};

/// How many splits a short search makes before a list is raised, the first one first: each makes half as many again.
const SHORT: [u32; 14] = [
    10, 15, 22, 33, 49, 73, 110, 165, 247, 370, 556, 834, 1_251, 1_877,
];

/// Of how many turns in all one is for a short search.
const SHARE: u32 = 4;

/// How far the open leaf of a step stands from that of the step before, in parts of 2^16 of all of them: the golden
/// section, which spreads them evenly.
const STRIDE: u16 = 40_503;

/// The score of the best plan, if there is one.
fn best_score(
    alloc: Global,
    inst: &Instance,
    best: &Option<Starts>,
) -> Result<Option<i128>, AllocError>
    requires { IfSome best.now (IsFeasiblePlan inst.now) }
{
    match best {
        Some(starts) => Ok(Some(RiskGoal.value(alloc, inst, starts.as_slice())?)),
        None => Ok(None),
    }
}

/// A box that a search of so many splits by these lists leaves open, if there is one.
fn box_left(
    alloc: Global,
    inst: &Instance,
    incumbent: Option<&[u32]>,
    lists: &[RefinedPrices],
    splits: u32,
    part: u16,
) -> Result<Option<Vec<Span>>, AllocError>
    requires incumbent { IfSome incumbent (λ given. IsFeasiblePlan inst.now given.now) }
    requires lists { MayStand inst.now lists.now }
    ensures { IfOk result (λ found. IfSome found (λ spans. IsBox inst.now spans.items)) }
{
    inst.fits();
    tables_bound_boxes();
    refined_lists_bound_boxes();
    let tables = refined_tables_of(alloc, inst, lists)?;
    let rows = tables.as_slice();
    let root = whole(alloc, inst, rows)?;
    let begun = root.nodes.as_slice();
    let end = go_on(alloc, &RiskGoal, inst, rows, begun, incumbent, splits)?;
    let best = best_score(alloc, inst, &end.best)?;
    let found = open_box(alloc, inst, rows, end.nodes.as_slice(), best, part)?;
    Ok(found)
}

/// Adds a list that is raised over a box, where it is in order.
fn add_box_list(
    alloc: Global,
    inst: &Instance,
    spans: &[Span],
    end: usize,
    lists: &mut Vec<RefinedPrices>,
) -> Result<(), AllocError>
    requires spans { IsBox inst.now spans.now }
    requires lists { MayStand inst.now lists.old.items }
    requires few { end ≤ 16 }
    requires room { length lists.old.items < end }
    ensures { OnOk result (AddsAtMostOne inst.now end lists.old.items lists.new.items) }
{
    let list = raise_groups_in(alloc, inst, spans, 0)?;
    if !is_in_order(&list) {
        return Ok(());
    }
    add_list(alloc, inst, list, lists)?;
    Ok(())
}

/// Adds lists that are raised over boxes which short searches leave open, as long as there are fewer than so many, and
/// turns for longer searches, and a box is left.
pub(crate) fn add_box_lists(
    alloc: Global,
    inst: &Instance,
    incumbent: Option<&[u32]>,
    turns: u32,
    end: usize,
    lists: &mut Vec<RefinedPrices>,
) -> Result<(), AllocError>
    requires incumbent { IfSome incumbent (λ given. IsFeasiblePlan inst.now given.now) }
    requires lists { MayStand inst.now lists.old.items }
    requires few { end ≤ 16 }
    requires within { length lists.old.items ≤ end }
    ensures { OnOk result (AddsSearched inst.now turns end lists.old.items lists.new.items) }
{
    let mut part = STRIDE;
    for splits in SHORT {
        if lists.len() >= end || splits > turns / SHARE {
            break;
        }
        let Some(spans) = box_left(alloc, inst, incumbent, lists.as_slice(), splits, part)? else {
            break;
        };
        add_box_list(alloc, inst, spans.as_slice(), end, lists)?;
        part = part.wrapping_add(STRIDE);
    }
    Ok(())
}
