//! Exclusions in periods of their seasons with their prices, while the first phase moves these.
//!
//! What prices add is in parts of 10^-12. Amounts stop at the ends of their type: nothing rests on them.
ghost use Rattle.std.specs.Prelude.{◌≡◌, ◌*◌, ◌<◌, length, All, IfOk, OnOk};
ghost use Rattle.lagrange_bound.specs.Prices.{IsPriceList};
ghost use Rattle.lagrange_bound.specs.Changes.{IsExPlace};
ghost use Rattle.price_ladder.specs.Phase.{IsWithin, IsSpot, AreSpots};

use crate::number::Number;
use crate::start_place::period_place;
use instance_model::Instance;
use lagrange_bound::Prices;
use std::alloc::{AllocError, Global};

/// How many spots there are at most.
const MANY: usize = 262_144;

/// How many prices of exclusions a list gets at most.
const FEW: usize = 400;

/// What a price of 1 adds.
const UNIT: i64 = 1_000_000;

/// An exclusion in a period of its season. The two interventions in that period are given by their places.
#[derive(Clone, Copy)]
pub(crate) struct Spot {
    exclusion: u32,
    period: u32,
    first: usize,
    second: usize,
}

impl Spot {
    fn new(inst: &Instance, e: u32, t: u32) -> Spot
        requires { IsExPlace inst.now e t }
        ensures { IsSpot inst.now result }
    {
        let exclusion = inst.exclusion(e);
        Spot {
            exclusion: e,
            period: t,
            first: period_place(inst, exclusion.first, t),
            second: period_place(inst, exclusion.second, t),
        }
    }
}

/// Those of exclusion `e`, with prices of 0, behind those that there are, as far as they aren't too many.
fn push_spots(inst: &Instance, e: u32, spots: &mut Vec<Spot>) -> Result<(), AllocError>
    requires number { e < length inst.now.exclusion_names }
    requires spots { AreSpots inst.now spots.old.items }
    ensures { OnOk result (AreSpots inst.now spots.new.items) }
{
    let season = inst.exclusion(e).season;
    for t in 1..inst.periods() + 1 {
        if spots.len() < MANY && inst.in_season(season, t) {
            spots.push(Spot::new(inst, e, t))?;
        }
    }
    Ok(())
}

/// All exclusions in the periods of their seasons with prices of 0, as far as they aren't too many.
pub(crate) fn all_spots(alloc: Global, inst: &Instance) -> Result<Vec<Spot>, AllocError>
    ensures { IfOk result (λ spots. AreSpots inst.now spots.items) }
{
    let mut spots = Vec::new(alloc);
    for e in 0..inst.exclusions() {
        push_spots(inst, e, &mut spots)?;
    }
    Ok(spots)
}

/// Those that have a price in a list.
pub(crate) fn priced_spots(
    alloc: Global,
    inst: &Instance,
    prices: &Prices,
) -> Result<Vec<Spot>, AllocError>
    requires { IsPriceList inst.now prices.now }
    ensures { IfOk result (λ spots. AreSpots inst.now spots.items) }
{
    let mut spots = Vec::new(alloc);
    for x in prices.ex_prices() {
        spots.push(Spot::new(inst, x.exclusion, x.period))?;
    }
    Ok(spots)
}

/// Their prices in a list.
pub(crate) fn charges_of(
    alloc: Global,
    inst: &Instance,
    prices: &Prices,
    spots: &[Spot],
) -> Result<Vec<Number>, AllocError>
    requires { IsPriceList inst.now prices.now }
    ensures { IfOk result (λ charges. length charges.items ≡ length spots.now) }
{
    let mut charges = Vec::with_capacity(alloc, spots.len())?;
    for spot in spots {
        charges.push(Number::new(prices.ex(inst, spot.exclusion, spot.period)))?;
    }
    Ok(charges)
}

/// What the prices add whatever the starts are.
pub(crate) fn fixed_of_charges(charges: &[Number]) -> i64 {
    let mut sum: i64 = 0;
    for charge in charges {
        sum = sum.saturating_sub(charge.value().saturating_mul(UNIT));
    }
    sum
}

/// Computes what the prices add in each period of each intervention.
pub(crate) fn note_burdens(burdens: &mut [i64], spots: &[Spot], charges: &[Number])
    requires spots { All (IsWithin (length burdens.old)) spots.now }
    requires each { length charges.now ≡ length spots.now }
{
    burdens.fill(0);
    for (k, spot) in spots.iter().enumerate() {
        let more = charges[k].value().saturating_mul(UNIT);
        let first = &mut burdens[spot.first];
        *first = first.saturating_add(more);
        let second = &mut burdens[spot.second];
        *second = second.saturating_add(more);
    }
}

/// How many of the two interventions are in progress, less the one that may be, pulls each price. A pull is `weight`
/// times as strong as that of a load of 1.
pub(crate) fn pull_charges(charges: &mut [Number], spots: &[Spot], busy: &[bool], weight: i64)
    requires spots { All (IsWithin (length busy.now)) spots.now }
    requires each { length charges.old ≡ length spots.now }
{
    for (k, spot) in spots.iter().enumerate() {
        let count = i64::from(busy[spot.first]) + i64::from(busy[spot.second]);
        charges[k].pull((count - 1).saturating_mul(UNIT.saturating_mul(weight)));
    }
}

/// The sum of the squares of all pulls.
pub(crate) fn squares_of_charges(charges: &[Number]) -> i128 {
    let mut sum: i128 = 0;
    for charge in charges {
        sum = sum.saturating_add(charge.square());
    }
    sum
}

/// Moves each price by the share of `way` that its pull has in a sum of squares.
pub(crate) fn move_charges(charges: &mut [Number], way: i128, squares: i128) {
    for charge in charges.iter_mut() {
        charge.go(way, squares);
    }
}

/// Notes that these are the best prices so far.
pub(crate) fn keep_charges(charges: &mut [Number]) {
    for charge in charges.iter_mut() {
        charge.keep();
    }
}

/// Goes back to the best prices.
pub(crate) fn take_back_charges(charges: &mut [Number]) {
    for charge in charges.iter_mut() {
        charge.take_back();
    }
}

/// The least best price that goes into a list, so that at most `count` do.
fn least_put(alloc: Global, charges: &[Number], count: usize) -> Result<u32, AllocError> {
    let mut values = Vec::with_capacity(alloc, charges.len())?;
    for charge in charges {
        values.push(charge.best())?;
    }
    values.sort_unstable();
    if values.len() <= count {
        return Ok(1);
    }
    Ok(values[values.len() - 1 - count].saturating_add(1))
}

/// Puts the greatest best prices into a list, not too many of them, and takes those of all other spots out.
pub(crate) fn put_spots(
    alloc: Global,
    inst: &Instance,
    prices: &mut Prices,
    spots: &[Spot],
    charges: &[Number],
) -> Result<(), AllocError>
    requires prices { IsPriceList inst.now prices.old }
    requires spots { AreSpots inst.now spots.now }
    requires each { length charges.now ≡ length spots.now }
    ensures { OnOk result (IsPriceList inst.now prices.new) }
{
    let least = least_put(alloc, charges, FEW)?;
    for (k, spot) in spots.iter().enumerate() {
        let best = charges[k].best();
        let value = if best >= least { best } else { 0 };
        prices.set_ex(inst, spot.exclusion, spot.period, value)?;
    }
    Ok(())
}
