//! What a refined price list adds whatever the starts are.
ghost use Rattle.std.specs.Prelude.{◌≡◌, ◌+◌, ◌*◌, ◌^◌, ◌<◌, ◌≤◌, pos, ◌-ℤ◌, length, IfOk, unsigned_abs, slice_index};
ghost use Rattle.std.specs.Prelude.{slice_set};
ghost use Rattle.refined_prices.specs.GroupBases.{offset_most, offset_cost as cost_of};
ghost use Rattle.refined_prices.specs.Cliques.{clique_total as total_of};
ghost use Rattle.refined_prices.specs.RefinedLists.{IsRefinedList};
ghost use Rattle.refined_prices.specs.RefinedWorth.{refined_constant};
ghost use Rattle.refined_prices.specs.tables.OffsetRows.{AreWithin, group_place};
ghost use Rattle.refined_prices.specs.tables.OffsetSums.{AreOffsetSums};

use crate::offset::Offset;
use crate::refined::RefinedPrices;
use crate::tables::list_test::groups_at;
use instance_model::Instance;
use lagrange_bound::fixed_cost;
use std::alloc::{AllocError, Global};

/// Adds an offset to the sum of its group.
fn add_offset(sums: &mut Vec<u64>, width: usize, x: Offset)
    requires from { 1 ≤ x.period }
    requires few { width ≤ 1025 }
    requires within { group_place width x.period x.group < length sums.old.items }
    requires small { slice_index sums.old.items (group_place width x.period x.group) ≤ 2 ^ 62 }
    ensures { sums.new.items ≡ slice_set sums.old.items (group_place width x.period x.group)
        (slice_index sums.old.items (group_place width x.period x.group) + x.value) }
{
    let place = (x.period as usize - 1) * width + x.group as usize;
    sums[place] += x.value as u64;
}

/// The sums of all offsets of each group, by period, then group.
fn offset_sums(
    alloc: Global,
    inst: &Instance,
    list: &RefinedPrices,
    width: usize,
) -> Result<Vec<u64>, AllocError>
    requires list { IsRefinedList inst.now list.now }
    requires width { AreWithin list.now.tails width }
    ensures { IfOk result (λ sums. AreOffsetSums inst.now list.now.offsets width sums.items) }
{
    inst.fits();
    let mut sums: Vec<u64> = vec![in alloc; 0; inst.periods() as usize * width]?;
    for x in list.offsets() {
        add_offset(&mut sums, width, *x);
    }
    Ok(sums)
}

/// The greatest sum of a group of period `t`.
fn most_in(inst: &Instance, list: &RefinedPrices, sums: &[u64], width: usize, t: u32) -> u64
    requires list { IsRefinedList inst.now list.now }
    requires width { AreWithin list.now.tails width }
    requires sums { AreOffsetSums inst.now list.now.offsets width sums.now }
    requires from { 1 ≤ t }
    requires to { t ≤ inst.now.periods }
    ensures value { result ≡ offset_most inst.now list.now.tails list.now.offsets t }
    ensures small { result ≤ 1024 * 1_000_000_000 }
{
    inst.fits();
    let from = (t as usize - 1) * width;
    let mut most = 0;
    for g in 0..groups_at(list.tails(), t) {
        most = most.max(sums[from + g]);
    }
    most
}

/// What the offsets cost.
fn offset_cost(
    alloc: Global,
    inst: &Instance,
    list: &RefinedPrices,
    width: usize,
) -> Result<u128, AllocError>
    requires list { IsRefinedList inst.now list.now }
    requires width { AreWithin list.now.tails width }
    ensures value { IfOk result (λ cost. cost ≡ cost_of inst.now list.now.tails list.now.offsets) }
    ensures small { IfOk result (λ cost. cost < 10 ^ 30) }
{
    inst.fits();
    let sums = offset_sums(alloc, inst, list, width)?;
    let weight = (1_000_000 - inst.alpha()) as u128 * 1_000_000_000;
    let mut cost: u128 = 0;
    for u in 0..inst.periods() {
        cost += weight * most_in(inst, list, sums.as_slice(), width, u + 1) as u128;
    }
    Ok(cost)
}

/// The sum of the prices of cliques.
fn clique_total(inst: &Instance, list: &RefinedPrices) -> u64
    requires { IsRefinedList inst.now list.now }
    ensures value { result ≡ total_of list.now.cliques }
    ensures small { result ≤ 4096 * 1_000_000_000 }
{
    inst.fits();
    let mut sum = 0;
    for x in list.cliques() {
        sum += x.value as u64;
    }
    sum
}

/// What the limits are worth, less the prices of the cliques and what the offsets cost.
fn constant_from(fixed: i128, cliques: u64, cost: u128) -> i128
    requires fixed { unsigned_abs fixed < 10 ^ 36 }
    requires cliques { cliques ≤ 4096 * 1_000_000_000 }
    requires cost { cost < 10 ^ 30 }
    ensures { result ≡ (fixed -ℤ pos (1_000_000_000_000 * cliques)) -ℤ pos cost }
{
    fixed - 1_000_000_000_000 * cliques as i128 - cost as i128
}

/// What the list adds whatever the starts are.
pub(crate) fn constant_of(
    alloc: Global,
    inst: &Instance,
    list: &RefinedPrices,
    width: usize,
) -> Result<i128, AllocError>
    requires list { IsRefinedList inst.now list.now }
    requires width { AreWithin list.now.tails width }
    ensures { IfOk result (λ constant. constant ≡ refined_constant inst.now list.now) }
{
    inst.fits();
    let cost = offset_cost(alloc, inst, list, width)?;
    Ok(constant_from(
        fixed_cost(inst, list.prices()),
        clique_total(inst, list),
        cost,
    ))
}
