//! Bases by a list with another tail: those of starts that don't run in its period stay as they are.
ghost use Rattle.std.specs.Prelude.{◌≡◌, ◌+◌, ◌*◌, ◌/◌, ◌%◌, ◌<◌, ◌≤◌, ◌^◌, All, length, IfOk, IsTrue, unsigned_abs};
ghost use Rattle.instance_model.specs.Tables.{is_allowed};
ghost use Rattle.instance_model.specs.Plans.{AreAllowedStarts};
ghost use Rattle.lagrange_bound.specs.Prices.{IsPriceList};
ghost use Rattle.price_ladder.specs.Kept.{AreValues, AreSmall, sum_over, rebased_of, gap_of};

use crate::entries::{entry, entry_count};
use duration_calendar::{in_run, run};
use instance_model::Instance;
use lagrange_bound::{Goal, Prices, RiskGoal};
use std::alloc::{AllocError, Global};

/// The base of a start by these prices where it runs in period `t`, or else the kept one.
fn rebased(inst: &Instance, prices: &Prices, t: u32, bases: &[i128], i: u32, s: u32) -> i128
    requires prices { IsPriceList inst.now prices.now }
    requires bases { AreSmall inst.now (10 ^ 30) bases.now }
    requires number { i < length inst.now.names }
    requires allowed { IsTrue (is_allowed inst.now i s) }
    ensures value { result ≡ rebased_of inst.now prices.now t bases.now i s }
    ensures small { unsigned_abs result < 10 ^ 30 }
{
    if !in_run(run(inst, i, s), t) {
        return entry(inst, bases, i, s);
    }
    RiskGoal.base(inst, prices, i, s)
}

/// The same by a place, or 0 where the start isn't allowed.
fn rebased_at(inst: &Instance, prices: &Prices, t: u32, bases: &[i128], k: u32) -> i128
    requires prices { IsPriceList inst.now prices.now }
    requires bases { AreSmall inst.now (10 ^ 30) bases.now }
    requires within { k < length inst.now.names * inst.now.periods }
    ensures value { IsTrue (is_allowed inst.now (k / inst.now.periods) (k % inst.now.periods + 1)) → result
        ≡ rebased_of inst.now prices.now t bases.now (k / inst.now.periods) (k % inst.now.periods + 1) }
    ensures small { unsigned_abs result < 10 ^ 30 }
{
    let periods = inst.periods();
    let i = k / periods;
    let s = k % periods + 1;
    if !inst.allowed(i, s) {
        return 0;
    }
    rebased(inst, prices, t, bases, i, s)
}

/// The same for all allowed starts.
pub(crate) fn all_rebased(
    alloc: Global,
    inst: &Instance,
    prices: &Prices,
    t: u32,
    bases: &[i128],
) -> Result<Vec<i128>, AllocError>
    requires prices { IsPriceList inst.now prices.now }
    requires bases { AreSmall inst.now (10 ^ 30) bases.now }
    ensures value { IfOk result (λ new. AreValues inst.now (rebased_of inst.now prices.now t bases.now) new.items) }
    ensures small { IfOk result (λ new. All (λ z. unsigned_abs z < 10 ^ 30) new.items) }
{
    inst.fits();
    let count = entry_count(inst);
    let mut new = Vec::with_capacity(alloc, count as usize)?;
    for k in 0..count {
        new.push(rebased_at(inst, prices, t, bases, k))?;
    }
    Ok(new)
}

/// What the base of a start is above the kept one.
fn gap(inst: &Instance, prices: &Prices, t: u32, bases: &[i128], i: u32, s: u32) -> i128
    requires prices { IsPriceList inst.now prices.now }
    requires bases { AreSmall inst.now (10 ^ 30) bases.now }
    requires number { i < length inst.now.names }
    requires allowed { IsTrue (is_allowed inst.now i s) }
    ensures value { result ≡ gap_of inst.now prices.now t bases.now i s }
    ensures small { unsigned_abs result ≤ 2 * 10 ^ 30 }
{
    rebased(inst, prices, t, bases, i, s) - entry(inst, bases, i, s)
}

/// The sum of that over one start for each intervention.
pub(crate) fn gap_sum(
    inst: &Instance,
    prices: &Prices,
    t: u32,
    bases: &[i128],
    starts: &[u32],
) -> i128
    requires prices { IsPriceList inst.now prices.now }
    requires bases { AreSmall inst.now (10 ^ 30) bases.now }
    requires starts { AreAllowedStarts inst.now starts.now }
    ensures value { result ≡ sum_over inst.now (gap_of inst.now prices.now t bases.now) starts.now }
    ensures small { unsigned_abs result ≤ 1024 * 2 * 10 ^ 30 }
{
    let mut sum: i128 = 0;
    for i in 0..inst.interventions() {
        sum += gap(inst, prices, t, bases, i, starts[i as usize]);
    }
    sum
}
