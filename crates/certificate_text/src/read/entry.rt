//! The entries of a price list.
ghost use Rattle.std.specs.Prelude.{◌≡◌, ◌≤◌, ◌-◌, ℕ, Some, IfOk, IfErr, All};
ghost use Rattle.std.specs.Bool.{OnTrue, OnFalse};
ghost use Rattle.lagrange_bound.specs.Prices.{IsPriceList};
ghost use Rattle.lagrange_bound.specs.Changes.{with_up, with_lo, with_tail, IsExSet};
ghost use Rattle.certificate_text.specs.Grammar as place;
ghost use Rattle.certificate_text.specs.Grammar.{IsLimitPrice};
ghost use Rattle.certificate_text.specs.read.Reading.{Fails, IsBeforeNoMark, IsTailOf, IsExPriceOf, EntryFits};
ghost use Rattle.certificate_text.specs.read.Reading.{SetsEntry};
ghost use Rattle.certificate_text.specs.read.Reading.{ReadsEntry, key_view};

use crate::read::CertFault;
use crate::read::fits::{fits_ex, fits_limit, fits_tail};
use crate::read::key::{EntryKey, key_of};
use crate::read::lines::Lines;
use crate::read::refusal::Refusal;
use certificate_lines::{CertificateLine, Version};
use instance_model::Instance;
use lagrange_bound::{Places, Prices, Tail};
use std::alloc::{AllocError, Global};

/// Reads an entry behind the last one into a price list, and gives its key.
pub fn read_entry(
    alloc: Global,
    inst: &Instance,
    version: Version,
    last: EntryKey,
    prices: &mut Prices,
    lines: &mut Lines<'_>,
) -> Result<EntryKey, CertFault>
    requires prices { IsPriceList inst.now prices.old }
    requires no_mark { IsBeforeNoMark lines.old }
    ensures ok { IfOk result (λ key. ReadsEntry inst.now version lines.old lines.new prices.old prices.new
        (key_view last) (key_view key)) }
    ensures err { (count left : ℕ)
        → IfErr result (Fails inst.now (place.lists version count left (Some (key_view last))) lines.old) }
{
    let line = lines.next_line(alloc)?;
    let Some(key) = key_of(version, &line) else {
        return Err(lines.fault(Refusal::Misplaced));
    };
    if !last.is_below(key) {
        return Err(lines.fault(Refusal::Misplaced));
    }
    if !set_entry(alloc, inst, &line, prices)? {
        return Err(lines.fault(Refusal::OutOfRange));
    }
    Ok(key)
}

/// Sets the entry of a line, if it is one with its numbers in range.
pub fn set_entry(
    alloc: Global,
    inst: &Instance,
    line: &CertificateLine,
    prices: &mut Prices,
) -> Result<bool, AllocError>
    requires prices { IsPriceList inst.now prices.old }
    ensures fits { IfOk result (λ set. OnTrue set (EntryFits inst.now line.now)) }
    ensures set { IfOk result (λ set. OnTrue set (SetsEntry inst.now prices.old prices.new line.now)) }
    ensures in_range { IfOk result (λ set. OnTrue set (IsPriceList inst.now prices.new)) }
    ensures unfit { IfOk result (λ set. OnFalse set (EntryFits inst.now line.now → ⊥)) }
{
    match line {
        CertificateLine::Up { c, t, v } => Ok(set_up(inst, *c, *t, *v, prices)),
        CertificateLine::Lo { c, t, v } => Ok(set_lo(inst, *c, *t, *v, prices)),
        CertificateLine::Tail { t, weight, places } => {
            set_tail(alloc, inst, *t, *weight, places.as_slice(), prices)
        }
        CertificateLine::Ex { e, t, v } => set_ex(inst, *e, *t, *v, prices),
        _ => Ok(false),
    }
}

fn set_up(inst: &Instance, c: u64, t: u64, v: u64, prices: &mut Prices) -> bool
    requires prices { IsPriceList inst.now prices.old }
    ensures fits { OnTrue result (IsLimitPrice inst.now c t v) }
    ensures set { OnTrue result (prices.new ≡ with_up inst.now prices.old (c - 1) t v) }
    ensures in_range { OnTrue result (IsPriceList inst.now prices.new) }
    ensures unfit { OnFalse result (IsLimitPrice inst.now c t v → ⊥) }
{
    if !fits_limit(inst, c, t, v) {
        return false;
    }
    prices.set_up(inst, (c - 1) as u32, t as u32, v as u32);
    true
}

fn set_lo(inst: &Instance, c: u64, t: u64, v: u64, prices: &mut Prices) -> bool
    requires prices { IsPriceList inst.now prices.old }
    ensures fits { OnTrue result (IsLimitPrice inst.now c t v) }
    ensures set { OnTrue result (prices.new ≡ with_lo inst.now prices.old (c - 1) t v) }
    ensures in_range { OnTrue result (IsPriceList inst.now prices.new) }
    ensures unfit { OnFalse result (IsLimitPrice inst.now c t v → ⊥) }
{
    if !fits_limit(inst, c, t, v) {
        return false;
    }
    prices.set_lo(inst, (c - 1) as u32, t as u32, v as u32);
    true
}

fn set_tail(
    alloc: Global,
    inst: &Instance,
    t: u64,
    weight: u64,
    places: &[u64],
    prices: &mut Prices,
) -> Result<bool, AllocError>
    requires prices { IsPriceList inst.now prices.old }
    ensures fits { IfOk result
        (λ set. OnTrue set (IsTailOf inst.now t (record { weight = weight; places = places.now }))) }
    ensures set { IfOk result
        (λ set. OnTrue set
        (prices.new ≡ with_tail prices.old t (Some (record { weight = weight; places = places.now })))) }
    ensures in_range { IfOk result (λ set. OnTrue set (IsPriceList inst.now prices.new)) }
    ensures unfit { IfOk result
        (λ set. OnFalse set (IsTailOf inst.now t (record { weight = weight; places = places.now }) → ⊥)) }
{
    if !fits_tail(inst, t, weight, places) {
        return Ok(false);
    }
    let tail = Tail {
        weight: weight as u32,
        places: places_of(alloc, places, inst.scenarios(t as u32))?,
    };
    prices.set_tail(inst, t as u32, Some(tail));
    Ok(true)
}

/// Numbers up to `most` as places.
fn places_of(alloc: Global, numbers: &[u64], most: u32) -> Result<Places, AllocError>
    requires { All (λ k. k ≤ most) numbers.now }
    ensures { IfOk result (λ places. places ≡ numbers.now) }
{
    let mut places = Vec::new(alloc);
    for number in numbers {
        places.push(*number as u32)?;
    }
    Ok(Places::from_vec(places))
}

fn set_ex(inst: &Instance, e: u64, t: u64, v: u64, prices: &mut Prices) -> Result<bool, AllocError>
    requires prices { IsPriceList inst.now prices.old }
    ensures fits { IfOk result (λ set. OnTrue set (IsExPriceOf inst.now e t v)) }
    ensures set { IfOk result (λ set. OnTrue set (IsExSet prices.old prices.new (e - 1) t v)) }
    ensures in_range { IfOk result (λ set. OnTrue set (IsPriceList inst.now prices.new)) }
    ensures unfit { IfOk result (λ set. OnFalse set (IsExPriceOf inst.now e t v → ⊥)) }
{
    if !fits_ex(inst, e, t, v) {
        return Ok(false);
    }
    prices.set_ex(inst, (e - 1) as u32, t as u32, v as u32)?;
    Ok(true)
}
