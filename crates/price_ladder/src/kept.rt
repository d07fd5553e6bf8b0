//! The ladder that keeps the prices of all starts: a changed list is judged by what its change adds to them.
ghost use Rattle.std.specs.Prelude.{◌≡◌, ◌*◌, ◌<◌, ◌≤◌, ◌≤ℤ◌, ◌^◌, IfOk, OnOk, Some, unsigned_abs};
ghost use Rattle.instance_model.specs.Plans.{AreAllowedStarts};
ghost use Rattle.lagrange_bound.specs.Prices.{PriceList, IsPriceList, IsTail, tail_of, zero_list};
ghost use Rattle.lagrange_bound.specs.Changes.{with_tail};
ghost use Rattle.price_ladder.specs.Places.{IsPlace, IsWithValue};
ghost use Rattle.price_ladder.specs.Raised.{root_worth};
ghost use Rattle.price_ladder.specs.Tried.{IsTried};
ghost use Rattle.price_ladder.specs.Kept.{AreSmall};
ghost use Rattle.price_ladder.specs.Beside.{IsSettled, IsBeside, IsWhole};

use crate::Place;
use crate::choice::{entry_sum, least_starts, slope};
use crate::entries::{all_bases, all_more, all_shifted};
use crate::ladder::Ladder;
use crate::place::{set_value, value_at};
use crate::plain::is_same;
use crate::plan_tail::plan_tail;
use crate::rebased::{all_rebased, gap_sum};
use crate::weight::fixed_weight;
use instance_model::Instance;
use lagrange_bound::{Prices, Tail};
use std::alloc::{AllocError, Global};

/// What is kept beside a list and its bases.
#[derive(Drop)]
pub(crate) struct Beside {
    /// The prices of all starts, by intervention, then start.
    pub(crate) entries: Vec<i128>,
    /// A start of least price for each intervention.
    pub(crate) choice: Vec<u32>,
    /// What the prices add whatever the starts are.
    pub(crate) fixed: i128,
    pub(crate) worth: i128,
}

/// A list with the bases of all starts and their prices.
#[derive(Drop)]
pub(crate) struct Kept {
    pub(crate) prices: Prices,
    pub(crate) bases: Vec<i128>,
    pub(crate) beside: Beside,
}

/// What the worth of the list is at most with another number at a place. Takes a look at one start of each
/// intervention.
fn worth_at_most(inst: &Instance, prices: &Prices, beside: &Beside, place: Place, v: u32) -> i128
    requires prices { IsPriceList inst.now prices.now }
    requires kept { IsBeside inst.now prices.now beside.now }
    requires place { IsPlace inst.now place }
    requires small { v ≤ 1_000_000_000 }
    ensures bound { (new : PriceList) → IsPriceList inst.now new → IsWithValue inst.now prices.now new place v →
        root_worth inst.now new ≤ℤ result }
    ensures small { unsigned_abs result < 2 * 10 ^ 37 }
{
    let times = v as i128 - value_at(inst, prices, place) as i128;
    beside.worth + times * slope(inst, place, beside.choice.as_slice())
}

/// What is kept beside a list with these prices and this fixed part. The starts are where the search for those of
/// least price begins.
pub(crate) fn settle(
    alloc: Global,
    inst: &Instance,
    entries: Vec<i128>,
    fixed: i128,
    starts: &[u32],
) -> Result<Beside, AllocError>
    requires entries { AreSmall inst.now (3 * 10 ^ 33) entries.items }
    requires fixed { unsigned_abs fixed < 2 * 10 ^ 36 }
    requires starts { AreAllowedStarts inst.now starts.now }
    ensures { IfOk result (IsSettled inst.now entries.items fixed) }
{
    let choice = least_starts(alloc, inst, entries.as_slice(), starts)?;
    let worth = entry_sum(inst, entries.as_slice(), choice.as_slice()) + fixed;
    Ok(Beside {
        entries,
        choice,
        fixed,
        worth,
    })
}

/// What is kept with another number at a place.
fn beside_with(
    alloc: Global,
    inst: &Instance,
    prices: &Prices,
    beside: &Beside,
    place: Place,
    v: u32,
) -> Result<Beside, AllocError>
    requires prices { IsPriceList inst.now prices.now }
    requires kept { IsBeside inst.now prices.now beside.now }
    requires place { IsPlace inst.now place }
    requires small { v ≤ 1_000_000_000 }
    ensures kept { IfOk result (λ new. (list : PriceList) → IsPriceList inst.now list →
        IsWithValue inst.now prices.now list place v → IsBeside inst.now list new) }
    ensures small { IfOk result (λ new. unsigned_abs new.worth < 10 ^ 37) }
{
    inst.fits();
    let times = v as i128 - value_at(inst, prices, place) as i128;
    let entries = all_more(alloc, inst, place, times, beside.entries.as_slice())?;
    let fixed = beside.fixed + times * fixed_weight(inst, place);
    settle(alloc, inst, entries, fixed, beside.choice.as_slice())
}

/// What is kept at the list of zeros, for a plan.
pub(crate) fn zeros(alloc: Global, inst: &Instance, starts: &[u32]) -> Result<Kept, AllocError>
    requires { AreAllowedStarts inst.now starts.now }
    ensures value { IfOk result (λ kept. kept.prices ≡ zero_list inst.now) }
    ensures in_range { IfOk result (λ kept. IsPriceList inst.now kept.prices) }
    ensures kept { IfOk result (IsWhole inst.now) }
{
    inst.fits();
    let prices = Prices::zero(alloc, inst)?;
    let bases = all_bases(alloc, inst, &prices)?;
    let entries = all_bases(alloc, inst, &prices)?;
    let beside = settle(alloc, inst, entries, 0, starts)?;
    Ok(Kept {
        prices,
        bases,
        beside,
    })
}

/// Puts another tail of period `t`, or none, in place of the one before, if
/// that leads to a worth of at least the target.
fn try_switch(
    alloc: Global,
    inst: &Instance,
    kept: &mut Kept,
    t: u32,
    before: Option<Tail>,
    tail: Option<Tail>,
    target: i128,
) -> Result<bool, AllocError>
    requires prices { IsPriceList inst.now kept.old.prices }
    requires kept { IsWhole inst.now kept.old }
    requires from { 1 ≤ t }
    requires to { t ≤ inst.now.periods }
    requires before { before ≡ tail_of kept.old.prices t }
    requires tail { (some : _) → tail ≡ Some some → IsTail inst.now t some }
    ensures tried { IfOk result (IsTried inst.now kept.old.prices kept.new.prices target
        (λ new. new ≡ with_tail kept.old.prices t tail)) }
    ensures kept { OnOk result (IsWhole inst.now kept.new) }
{
    inst.fits();
    kept.prices.set_tail(inst, t, tail);
    let gap = gap_sum(
        inst,
        &kept.prices,
        t,
        kept.bases.as_slice(),
        kept.beside.choice.as_slice(),
    );
    if kept.beside.worth + gap < target {
        kept.prices.set_tail(inst, t, before);
        return Ok(false);
    }
    let bases = all_rebased(alloc, inst, &kept.prices, t, kept.bases.as_slice())?;
    let entries = all_shifted(
        alloc,
        inst,
        kept.bases.as_slice(),
        bases.as_slice(),
        kept.beside.entries.as_slice(),
    )?;
    let beside = settle(
        alloc,
        inst,
        entries,
        kept.beside.fixed,
        kept.beside.choice.as_slice(),
    )?;
    if beside.worth < target {
        kept.prices.set_tail(inst, t, before);
        return Ok(false);
    }
    kept.bases = bases;
    kept.beside = beside;
    Ok(true)
}

impl Ladder for Kept {
    ghost use Rattle.price_ladder.specs.Beside.{IsWhole};

    ghost list = { λ kept. kept.prices };

    ghost is_kept = { λ inst kept. IsWhole inst kept };

    fn prices(&self) -> &Prices {
        &self.prices
    }

    fn worth(&self, _alloc: Global, _inst: &Instance) -> Result<i128, AllocError> {
        Ok(self.beside.worth)
    }

    fn try_value(
        &mut self,
        alloc: Global,
        inst: &Instance,
        place: Place,
        v: u32,
        target: i128,
    ) -> Result<bool, AllocError> {
        if worth_at_most(inst, &self.prices, &self.beside, place, v) < target {
            return Ok(false);
        }
        let beside = beside_with(alloc, inst, &self.prices, &self.beside, place, v)?;
        if beside.worth < target {
            return Ok(false);
        }
        set_value(inst, &mut self.prices, place, v)?;
        self.beside = beside;
        Ok(true)
    }

    fn try_tail(
        &mut self,
        alloc: Global,
        inst: &Instance,
        starts: &[u32],
        t: u32,
        target: i128,
    ) -> Result<bool, AllocError> {
        let own = plan_tail(alloc, inst, starts, t)?;
        let Some(tail) = self.prices.tail(inst, t) else {
            return try_switch(alloc, inst, self, t, None, Some(own), target);
        };
        if !is_same(tail, &own) {
            return Ok(false);
        }
        try_switch(alloc, inst, self, t, Some(own), None, target)
    }
}
