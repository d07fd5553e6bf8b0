//! The prices of all allowed starts, in a row for each intervention.
ghost use Rattle.std.specs.Prelude.{◌≡◌, ℕ, ◌<◌, ◌+◌, [], length, map, IfOk, None, slice_index_or};
ghost use Rattle.std.specs.List.{range_with_len};
ghost use Rattle.lagrange_bound.specs.Prices.{IsPriceList};
ghost use Rattle.lagrange_bound.specs.Lesser.{IsSmallPrice};
ghost use Rattle.lagrange_bound.specs.ExSums.{AreExSums, AreExBefore};
ghost use Rattle.lagrange_bound.specs.Tabulated.{price_entry, price_row as price_row_of};

use crate::ex_sums::{exclusion_sums, prefix_sums};
use crate::pricing::price_with;
use crate::{Goal, Prices};
use duration_calendar::run;
use instance_model::Instance;
use std::alloc::{AllocError, Global};

/// The price of a start, or nothing where it isn't allowed.
fn entry<G: Goal>(
    goal: &G,
    inst: &Instance,
    prices: &Prices,
    i: u32,
    s: u32,
    before: &[u64],
) -> Option<i128>
    requires number { i < length inst.now.names }
    requires prices { IsPriceList inst.now prices.now }
    requires before { AreExBefore inst.now prices.now.ex i before.now }
    ensures value { result ≡ price_entry (G.base_gives goal.now inst.now prices.now) inst.now prices.now i s }
    ensures small { IsSmallPrice result }
{
    if !inst.allowed(i, s) {
        return None;
    }
    inst.fits();
    let window = run(inst, i, s);
    let ex = before[window.past as usize - 1] - before[window.from as usize - 1];
    Some(price_with(goal, inst, prices, i, s, ex))
}

/// The entries of intervention `i`.
fn price_row<G: Goal>(
    alloc: Global,
    goal: &G,
    inst: &Instance,
    prices: &Prices,
    sums: &[u64],
    i: u32,
) -> Result<Vec<Option<i128>>, AllocError>
    requires number { i < length inst.now.names }
    requires prices { IsPriceList inst.now prices.now }
    requires sums { AreExSums inst.now prices.now.ex sums.now }
    ensures value { IfOk result (λ row.
        row.items ≡ price_row_of (G.base_gives goal.now inst.now prices.now) inst.now prices.now i) }
    ensures small { IfOk result (λ row. (k : ℕ) → IsSmallPrice (slice_index_or row.items k None)) }
{
    inst.fits();
    let periods = inst.periods();
    let before = prefix_sums(alloc, sums, i as usize * periods as usize, periods)?;
    let starts = inst.tmax(i);
    let mut row = Vec::with_capacity(alloc, starts as usize)?;
    for s in 1..starts + 1 {
        row.push(entry(goal, inst, prices, i, s, before.as_slice()))?;
    }
    Ok(row)
}

/// The entries of all interventions.
pub(crate) fn price_rows<G: Goal>(
    alloc: Global,
    goal: &G,
    inst: &Instance,
    prices: &Prices,
) -> Result<Vec<Vec<Option<i128>>>, AllocError>
    requires { IsPriceList inst.now prices.now }
    ensures value { IfOk result (λ rows. map (λ row. row.items) rows.items
        ≡ map (price_row_of (G.base_gives goal.now inst.now prices.now) inst.now prices.now)
        (range_with_len 0 (length inst.now.names))) }
    ensures small { IfOk result (λ rows. (i k : ℕ) →
        IsSmallPrice (slice_index_or (slice_index_or (map (λ row. row.items) rows.items) i []) k None)) }
{
    let sums = exclusion_sums(alloc, inst, prices)?;
    let count = inst.interventions();
    let mut rows = Vec::with_capacity(alloc, count as usize)?;
    for i in 0..count {
        rows.push(price_row(alloc, goal, inst, prices, sums.as_slice(), i)?)?;
    }
    Ok(rows)
}
