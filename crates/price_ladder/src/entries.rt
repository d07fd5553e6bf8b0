//! Numbers that are kept for starts, in one list by intervention, then start.
ghost use Rattle.std.specs.Prelude.{◌≡◌, ◌+◌, ◌-◌, ◌*◌, ◌/◌, ◌%◌, ◌<◌, ◌≤◌, ◌^◌, length, IfOk, All, IsTrue};
ghost use Rattle.std.specs.Prelude.{unsigned_abs};
ghost use Rattle.instance_model.specs.Tables.{is_allowed};
ghost use Rattle.lagrange_bound.specs.Prices.{IsPriceList};
ghost use Rattle.lagrange_bound.specs.Goals.{risk_base};
ghost use Rattle.price_ladder.specs.Places.{IsPlace};
ghost use Rattle.price_ladder.specs.Weights.{price_at};
ghost use Rattle.price_ladder.specs.Kept.{kept_at, AreValues, AreSmall, more_of, shifted_of};

use crate::Place;
use crate::weight::weight;
use instance_model::Instance;
use lagrange_bound::{Goal, Prices, RiskGoal, price};
use std::alloc::{AllocError, Global};

/// The number that is kept for start `s` of intervention `i`.
pub(crate) fn entry(inst: &Instance, entries: &[i128], i: u32, s: u32) -> i128
    requires each { length entries.now ≡ length inst.now.names * inst.now.periods }
    requires number { i < length inst.now.names }
    requires allowed { IsTrue (is_allowed inst.now i s) }
    ensures { result ≡ kept_at inst.now entries.now i s }
{
    inst.fits();
    let first = i as usize * inst.periods() as usize;
    entries[first + (s as usize - 1)]
}

/// How many numbers are kept.
pub(crate) fn entry_count(inst: &Instance) -> u32
    ensures value { result ≡ length inst.now.names * inst.now.periods }
    ensures few { result ≤ 524_288 }
{
    inst.interventions() * inst.periods()
}

/// The base of the start at a place, or 0 where it isn't allowed.
fn base_at(inst: &Instance, prices: &Prices, k: u32) -> i128
    requires prices { IsPriceList inst.now prices.now }
    requires within { k < length inst.now.names * inst.now.periods }
    ensures value { IsTrue (is_allowed inst.now (k / inst.now.periods) (k % inst.now.periods + 1)) →
        result ≡ risk_base inst.now prices.now (k / inst.now.periods) (k % inst.now.periods + 1) }
    ensures small { unsigned_abs result < 10 ^ 30 }
{
    let periods = inst.periods();
    let i = k / periods;
    let s = k % periods + 1;
    if !inst.allowed(i, s) {
        return 0;
    }
    RiskGoal.base(inst, prices, i, s)
}

/// The bases of all allowed starts.
pub(crate) fn all_bases(
    alloc: Global,
    inst: &Instance,
    prices: &Prices,
) -> Result<Vec<i128>, AllocError>
    requires { IsPriceList inst.now prices.now }
    ensures value { IfOk result (λ entries. AreValues inst.now (risk_base inst.now prices.now) entries.items) }
    ensures small { IfOk result (λ entries. All (λ z. unsigned_abs z < 10 ^ 30) entries.items) }
{
    inst.fits();
    let count = entry_count(inst);
    let mut entries = Vec::with_capacity(alloc, count as usize)?;
    for k in 0..count {
        entries.push(base_at(inst, prices, k))?;
    }
    Ok(entries)
}

/// The price of the start at a place, or 0 where it isn't allowed.
fn price_at(inst: &Instance, prices: &Prices, k: u32) -> i128
    requires prices { IsPriceList inst.now prices.now }
    requires within { k < length inst.now.names * inst.now.periods }
    ensures value { IsTrue (is_allowed inst.now (k / inst.now.periods) (k % inst.now.periods + 1)) →
        result ≡ price_at inst.now prices.now (k / inst.now.periods) (k % inst.now.periods + 1) }
    ensures small { unsigned_abs result < 10 ^ 34 }
{
    let periods = inst.periods();
    let i = k / periods;
    let s = k % periods + 1;
    if !inst.allowed(i, s) {
        return 0;
    }
    price(&RiskGoal, inst, prices, i, s)
}

/// The prices of all allowed starts.
pub(crate) fn all_prices(
    alloc: Global,
    inst: &Instance,
    prices: &Prices,
) -> Result<Vec<i128>, AllocError>
    requires { IsPriceList inst.now prices.now }
    ensures { IfOk result (λ entries. AreValues inst.now (price_at inst.now prices.now) entries.items) }
{
    inst.fits();
    let count = entry_count(inst);
    let mut entries = Vec::with_capacity(alloc, count as usize)?;
    for k in 0..count {
        entries.push(price_at(inst, prices, k))?;
    }
    Ok(entries)
}

/// The number at a place with `times` more of the number at `place`, or 0 where the start isn't allowed.
fn more_at(inst: &Instance, place: Place, times: i128, entries: &[i128], k: u32) -> i128
    requires place { IsPlace inst.now place }
    requires times { unsigned_abs times ≤ 1_000_000_000 }
    requires entries { AreSmall inst.now (2 * 10 ^ 33) entries.now }
    requires within { k < length inst.now.names * inst.now.periods }
    ensures value { IsTrue (is_allowed inst.now (k / inst.now.periods) (k % inst.now.periods + 1)) →
        result ≡ more_of inst.now place times entries.now (k / inst.now.periods) (k % inst.now.periods + 1) }
    ensures small { unsigned_abs result < 4 * 10 ^ 33 }
{
    let periods = inst.periods();
    let i = k / periods;
    let s = k % periods + 1;
    if !inst.allowed(i, s) {
        return 0;
    }
    entry(inst, entries, i, s) + times * weight(inst, place, i, s)
}

/// All numbers with `times` more of the number at `place`.
pub(crate) fn all_more(
    alloc: Global,
    inst: &Instance,
    place: Place,
    times: i128,
    entries: &[i128],
) -> Result<Vec<i128>, AllocError>
    requires place { IsPlace inst.now place }
    requires times { unsigned_abs times ≤ 1_000_000_000 }
    requires entries { AreSmall inst.now (2 * 10 ^ 33) entries.now }
    ensures { IfOk result (λ new. AreValues inst.now (more_of inst.now place times entries.now) new.items) }
{
    inst.fits();
    let count = entry_count(inst);
    let mut new = Vec::with_capacity(alloc, count as usize)?;
    for k in 0..count {
        new.push(more_at(inst, place, times, entries, k))?;
    }
    Ok(new)
}

/// The number at a place with another base in it, or 0 where the start isn't allowed.
fn shifted_at(inst: &Instance, before: &[i128], after: &[i128], entries: &[i128], k: u32) -> i128
    requires before { AreSmall inst.now (10 ^ 30) before.now }
    requires after { AreSmall inst.now (10 ^ 30) after.now }
    requires entries { AreSmall inst.now (2 * 10 ^ 33) entries.now }
    requires within { k < length inst.now.names * inst.now.periods }
    ensures value { IsTrue (is_allowed inst.now (k / inst.now.periods) (k % inst.now.periods + 1)) → result
        ≡ shifted_of inst.now before.now after.now entries.now (k / inst.now.periods) (k % inst.now.periods + 1) }
    ensures small { unsigned_abs result < 4 * 10 ^ 33 }
{
    let periods = inst.periods();
    let i = k / periods;
    let s = k % periods + 1;
    if !inst.allowed(i, s) {
        return 0;
    }
    entry(inst, entries, i, s) + (entry(inst, after, i, s) - entry(inst, before, i, s))
}

/// All numbers with other bases in them.
pub(crate) fn all_shifted(
    alloc: Global,
    inst: &Instance,
    before: &[i128],
    after: &[i128],
    entries: &[i128],
) -> Result<Vec<i128>, AllocError>
    requires before { AreSmall inst.now (10 ^ 30) before.now }
    requires after { AreSmall inst.now (10 ^ 30) after.now }
    requires entries { AreSmall inst.now (2 * 10 ^ 33) entries.now }
    ensures { IfOk result (λ new.
        AreValues inst.now (shifted_of inst.now before.now after.now entries.now) new.items) }
{
    inst.fits();
    let count = entry_count(inst);
    let mut new = Vec::with_capacity(alloc, count as usize)?;
    for k in 0..count {
        new.push(shifted_at(inst, before, after, entries, k))?;
    }
    Ok(new)
}
