//! The prices of all allowed starts by a refined price list, in a row for each intervention, and its constant.
ghost use Rattle.std.specs.Prelude.{◌≡◌, ◌+◌, ◌*◌, ◌^◌, ◌<◌, ◌≤◌, pos, ◌+ℤ◌, length, map, IfOk, IsTrue};
ghost use Rattle.std.specs.Prelude.{unsigned_abs, slice_index_or};
ghost use Rattle.std.specs.List.{range_with_len};
ghost use Rattle.instance_model.specs.Tables.{is_allowed, tmax};
ghost use Rattle.refined_prices.specs.GroupBases.{group_base_of};
ghost use Rattle.refined_prices.specs.RefinedLists.{IsRefinedList};
ghost use Rattle.refined_prices.specs.RefinedWorth.{counted_part, refined_constant};
ghost use Rattle.refined_prices.specs.tables.OffsetRows.{own_offsets as own_of, AreWithin, IsOffsetRow};
ghost use Rattle.refined_prices.specs.tables.PaidSums.{ArePaid};
ghost use Rattle.refined_prices.specs.tables.CapTables.{IsCapTable};
ghost use Rattle.refined_prices.specs.tables.RefinedRows.{refined_entry, refined_row as row_of, AreCostsOf};

use crate::refined::RefinedPrices;
use crate::tables::cap_table::CapTable;
use crate::tables::constant::constant_of;
use crate::tables::group_term::group_term;
use crate::tables::load_costs::load_costs;
use crate::tables::offset_rows::{OwnOffsets, offset_row, own_offsets};
use crate::tables::paid_sums::{paid_over, paid_sums};
use crate::tables::width::width_of;
use duration_calendar::run;
use fixed_num::Steps;
use instance_model::Instance;
use std::alloc::{AllocError, Global};
use std::marker::Brand;
use std::sync::ledger::{Blank, Ledger};

/// The base of intervention `i` at start `s`, computed on a new ledger: the sum of its terms over its run.
fn group_base<L: Ledger>(
    inst: &Instance,
    list: &RefinedPrices,
    row: &[u32],
    width: usize,
    i: u32,
    s: u32,
    blank: Blank,
) -> i128
    requires name { blank.name ≡ L.name }
    requires parts { blank.parts ≡ L.parts }
    requires some { 0 < blank.parts }
    requires number { i < length inst.now.names }
    requires allowed { IsTrue (is_allowed inst.now i s) }
    requires list { IsRefinedList inst.now list.now }
    requires width { AreWithin list.now.tails width }
    requires row { IsOffsetRow inst.now list.now.offsets width i row.now }
    ensures value { result ≡ group_base_of inst.now list.now.tails list.now.offsets i s }
    ensures small { unsigned_abs result < 10 ^ 30 }
{
    inst.fits();
    let mut steps: Steps<L> = Steps::zero(blank);
    let window = run(inst, i, s);
    let mut base: i128 = 0;
    for t in window.from..window.past {
        let from = (t as usize - 1) * width;
        base += group_term(inst, list.tail(inst, t), row, from, i, s, t, &mut steps);
    }
    base
}

/// The base of intervention `i` at start `s`.
fn base_at(inst: &Instance, list: &RefinedPrices, row: &[u32], width: usize, i: u32, s: u32) -> i128
    requires number { i < length inst.now.names }
    requires allowed { IsTrue (is_allowed inst.now i s) }
    requires list { IsRefinedList inst.now list.now }
    requires width { AreWithin list.now.tails width }
    requires row { IsOffsetRow inst.now list.now.offsets width i row.now }
    ensures value { result ≡ group_base_of inst.now list.now.tails list.now.offsets i s }
    ensures small { unsigned_abs result < 10 ^ 30 }
{
    group_base::<Brand>(inst, list, row, width, i, s, Blank::new(1))
}

/// A price of its parts.
fn price_from(base: i128, limits: i128, paid: u128) -> i128
    requires base { unsigned_abs base < 10 ^ 30 }
    requires limits { unsigned_abs limits ≤ 32_000_000 * 2 * 10 ^ 29 }
    requires paid { paid ≤ 512 * (2 ^ 25 * 2_000_000_000 + 4096 * 1_000_000_000) }
    ensures { result ≡ base +ℤ (limits +ℤ pos (1_000_000_000_000 * paid)) }
{
    base + (limits + 1_000_000_000_000 * paid as i128)
}

/// The price of a start, or nothing where it isn't allowed.
fn entry(
    inst: &Instance,
    list: &RefinedPrices,
    row: &[u32],
    width: usize,
    costs: &[i128],
    sums: &[u64],
    i: u32,
    s: u32,
) -> Option<i128>
    requires number { i < length inst.now.names }
    requires list { IsRefinedList inst.now list.now }
    requires width { AreWithin list.now.tails width }
    requires row { IsOffsetRow inst.now list.now.offsets width i row.now }
    requires costs { AreCostsOf inst.now list.now i costs.now }
    requires sums { ArePaid inst.now list.now sums.now }
    ensures { result ≡ refined_entry inst.now list.now i s }
{
    inst.fits();
    if !inst.allowed(i, s) {
        return None;
    }
    let base = base_at(inst, list, row, width, i, s);
    let paid = paid_over(inst, list, sums, i, s);
    Some(price_from(base, costs[s as usize - 1], paid))
}

/// The entries of intervention `i`.
fn refined_row(
    alloc: Global,
    inst: &Instance,
    list: &RefinedPrices,
    caps: &CapTable,
    sums: &[u64],
    width: usize,
    own: &OwnOffsets,
    i: u32,
) -> Result<Vec<Option<i128>>, AllocError>
    requires number { i < length inst.now.names }
    requires list { IsRefinedList inst.now list.now }
    requires caps { IsCapTable inst.now caps.now }
    requires sums { ArePaid inst.now list.now sums.now }
    requires width { AreWithin list.now.tails width }
    requires own { own.now ≡ own_of list.now.offsets i }
    ensures { IfOk result (λ row. row.items ≡ row_of inst.now list.now i) }
{
    inst.fits();
    let offsets = offset_row(alloc, inst, list, width, own, i)?;
    let costs = load_costs(alloc, inst, list, caps, i)?;
    let starts = inst.tmax(i);
    let mut row = Vec::with_capacity(alloc, starts as usize)?;
    for s in 1..starts + 1 {
        row.push(entry(
            inst,
            list,
            offsets.as_slice(),
            width,
            costs.as_slice(),
            sums,
            i,
            s,
        ))?;
    }
    Ok(row)
}

/// For each intervention the prices of its starts from 1 on, or nothing where a start isn't allowed.
fn price_rows(
    alloc: Global,
    inst: &Instance,
    list: &RefinedPrices,
    width: usize,
) -> Result<Vec<Vec<Option<i128>>>, AllocError>
    requires list { IsRefinedList inst.now list.now }
    requires width { AreWithin list.now.tails width }
    ensures { IfOk result (λ rows. map (λ row. row.items) rows.items
        ≡ map (row_of inst.now list.now) (range_with_len 0 (length inst.now.names))) }
{
    let caps = CapTable::make(alloc, inst)?;
    let sums = paid_sums(alloc, inst, list)?;
    let own = own_offsets(alloc, inst, list)?;
    let count = inst.interventions();
    let mut rows = Vec::with_capacity(alloc, count as usize)?;
    for i in 0..count {
        rows.push(refined_row(
            alloc,
            inst,
            list,
            &caps,
            sums.as_slice(),
            width,
            &own[i as usize],
            i,
        )?)?;
    }
    Ok(rows)
}

/// For each intervention the prices of its starts from 1 on, or nothing where a start isn't allowed, and what the list
/// adds whatever the starts are. Goes over each workload and each offset once, and over the risks of each start once.
/// Takes memory.
pub fn refined_rows(
    alloc: Global,
    inst: &Instance,
    list: &RefinedPrices,
) -> Result<(Vec<Vec<Option<i128>>>, i128), AllocError>
    requires { IsRefinedList inst.now list.now }
    ensures rows { IfOk result (λ table. map (λ row. row.items) table.0.items
        ≡ map (row_of inst.now list.now) (range_with_len 0 (length inst.now.names))) }
    ensures constant { IfOk result (λ table. table.1 ≡ refined_constant inst.now list.now) }
{
    let width = width_of(inst, list);
    let rows = price_rows(alloc, inst, list, width)?;
    let constant = constant_of(alloc, inst, list, width)?;
    Ok((rows, constant))
}
