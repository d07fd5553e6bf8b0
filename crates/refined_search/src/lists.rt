//! The price lists: those of the old certificate, and more behind them.
ghost use Rattle.std.specs.Prelude.{◌≡◌, ◌<◌, ◌≤◌, length, option_map, IfOk, IfSome, OnOk};
ghost use Rattle.branch_search.specs.Best.{IsFeasiblePlan};
ghost use Rattle.refined_prices.specs.RefinedLists.{IsRefinedList};
ghost use Rattle.refined_check.specs.certificate.Ranges.{IsRefinedInRange};
ghost use Rattle.instance_model.specs.Plans.{AreAllowedStarts};
ghost use Rattle.refined_search.specs.Lists.{lists_of, HasRaised, AreListsFor};
ghost use Rattle.refined_search.specs.Steps.{MayStand, AddsOne, AddsAtMostOne, AddsRaised};

use crate::box_lists::add_box_lists;
use crate::compare::has_alike;
use crate::order::is_in_order;
use crate::plan::ladder_plan;
use group_ladder::raise_groups;
use instance_model::{Instance, Starts};
use price_ladder::raise_prices;
use refined_check::RefinedCertificate;
use refined_prices::RefinedPrices;
use refined_text::{refined_list, versions_stay_in_range};
use std::alloc::{AllocError, Global};

/// How many lists a certificate may have.
pub const MOST_LISTS: usize = 16;

/// A copy of some lists.
fn copy_of(alloc: Global, lists: &[RefinedPrices]) -> Result<Vec<RefinedPrices>, AllocError>
    ensures { IfOk result (λ copy. copy.items ≡ lists.now) }
{
    let mut copy = Vec::new(alloc);
    for list in lists {
        copy.push(list.clone()?)?;
    }
    Ok(copy)
}

/// Copies of the lists of a certificate, if there is one.
fn old_lists(
    alloc: Global,
    cert: Option<&RefinedCertificate>,
) -> Result<Vec<RefinedPrices>, AllocError>
    ensures { IfOk result (λ lists. lists.items ≡ lists_of (option_map (λ old. old.now) cert.entry)) }
{
    match cert {
        Some(cert) => {
            let lists = copy_of(alloc, cert.lists.as_slice())?;
            Ok(lists)
        }
        None => Ok(Vec::new(alloc)),
    }
}

/// Adds a list, unless the zeros or a list that stands there price alike.
pub(crate) fn add_list(
    alloc: Global,
    inst: &Instance,
    list: RefinedPrices,
    lists: &mut Vec<RefinedPrices>,
) -> Result<(), AllocError>
    requires list { IsRefinedList inst.now list }
    requires lists { MayStand inst.now lists.old.items }
    ensures { OnOk result (AddsOne inst.now list lists.old.items lists.new.items) }
{
    if has_alike(alloc, inst, lists.as_slice(), &list)? {
        return Ok(());
    }
    lists.push(list)?;
    Ok(())
}

/// Adds the list that the ladder of prices raises for a plan of allowed starts.
fn add_raised(
    alloc: Global,
    inst: &Instance,
    starts: &Starts,
    end: usize,
    lists: &mut Vec<RefinedPrices>,
) -> Result<(), AllocError>
    requires starts { AreAllowedStarts inst.now starts.now }
    requires lists { MayStand inst.now lists.old.items }
    requires few { end ≤ 16 }
    requires room { length lists.old.items < end }
    ensures adds { OnOk result (AddsAtMostOne inst.now end lists.old.items lists.new.items) }
    ensures raised { OnOk result (HasRaised inst.now starts.now lists.new.items) }
{
    versions_stay_in_range();
    let prices = raise_prices(alloc, inst, starts.as_slice())?;
    let list = refined_list(alloc, inst, &prices)?;
    add_list(alloc, inst, list, lists)?;
    Ok(())
}

/// Adds that list, if there are fewer than so many and there is a plan of allowed starts.
fn add_ladder_list(
    alloc: Global,
    inst: &Instance,
    incumbent: Option<&[u32]>,
    end: usize,
    lists: &mut Vec<RefinedPrices>,
) -> Result<(), AllocError>
    requires incumbent { IfSome incumbent (λ given. IsFeasiblePlan inst.now given.now) }
    requires lists { MayStand inst.now lists.old.items }
    requires few { end ≤ 16 }
    requires within { length lists.old.items ≤ end }
    ensures { OnOk result (AddsRaised inst.now (option_map (λ given. given.now) incumbent.entry) end lists.old.items
        lists.new.items) }
{
    if lists.len() >= end {
        return Ok(());
    }
    match ladder_plan(alloc, inst, incumbent)? {
        Some(starts) => {
            add_raised(alloc, inst, &starts, end, lists)?;
            Ok(())
        }
        None => Ok(()),
    }
}

/// Adds the list that is raised by groups, if there are fewer than so many.
fn add_group_list(
    alloc: Global,
    inst: &Instance,
    turns: u32,
    end: usize,
    lists: &mut Vec<RefinedPrices>,
) -> Result<(), AllocError>
    requires lists { MayStand inst.now lists.old.items }
    requires few { end ≤ 16 }
    requires within { length lists.old.items ≤ end }
    ensures { OnOk result (AddsAtMostOne inst.now end lists.old.items lists.new.items) }
{
    if lists.len() >= end {
        return Ok(());
    }
    let list = raise_groups(alloc, inst, turns)?;
    if !is_in_order(&list) {
        return Ok(());
    }
    add_list(alloc, inst, list, lists)?;
    Ok(())
}

/// The lists of the old certificate, if there is one, and at most so many behind them, if there is room. The ladder of
/// prices raises the first further list for the plan handed in, or else for the plan of the least allowed starts. The
/// second one is raised by groups, and the others over boxes that short searches leave open. A list that prices alike
/// with the zeros or a list before it is left out.
pub(crate) fn lists_for(
    alloc: Global,
    inst: &Instance,
    incumbent: Option<&[u32]>,
    cert: Option<&RefinedCertificate>,
    turns: u32,
    most: usize,
) -> Result<Vec<RefinedPrices>, AllocError>
    requires incumbent { IfSome incumbent (λ given. IsFeasiblePlan inst.now given.now) }
    requires cert { IfSome cert (λ old. IsRefinedInRange inst.now old.now) }
    ensures { IfOk result (λ lists. AreListsFor inst.now (option_map (λ given. given.now) incumbent.entry)
        (lists_of (option_map (λ old. old.now) cert.entry)) turns most lists.items) }
{
    let mut lists = old_lists(alloc, cert)?;
    let room = MOST_LISTS - lists.len();
    let end = lists.len() + most.min(room);
    add_ladder_list(alloc, inst, incumbent, end, &mut lists)?;
    add_group_list(alloc, inst, turns, end, &mut lists)?;
    add_box_lists(alloc, inst, incumbent, turns, end, &mut lists)?;
    Ok(lists)
}
