//! The first phase: a list whose worth is near the greatest, by an ascent along the supergradient. Which list it is
//! carries no promise.
ghost use Rattle.std.specs.Prelude.{IfOk, OnOk};
ghost use Rattle.instance_model.specs.Plans.{AreAllowedStarts};
ghost use Rattle.lagrange_bound.specs.Prices.{IsPriceList};
ghost use Rattle.price_ladder.specs.Phase.{AreSpots};
ghost use Rattle.price_ladder.specs.Beside.{IsWhole};

use crate::ascent::Ascent;
use crate::kept::Kept;
use crate::ladder::Ladder;
use crate::spot::{Spot, all_spots, priced_spots};
use crate::whole::whole;
use instance_model::Instance;
use std::alloc::{AllocError, Global};

/// How many rounds an ascent has.
const ROUNDS: u32 = 400;

/// How far above the worth the first ascent aims at first, in thousandths of the range of bases.
const WIDE: i64 = 100;

/// The same of the second one, which goes on from where the first one ended.
const NARROW: i64 = 1;

/// Switches each tail of a plan that gains.
fn switch_tails(
    alloc: Global,
    inst: &Instance,
    starts: &[u32],
    kept: &mut Kept,
) -> Result<(), AllocError>
    requires prices { IsPriceList inst.now kept.old.prices }
    requires kept { IsWhole inst.now kept.old }
    requires starts { AreAllowedStarts inst.now starts.now }
    ensures in_range { OnOk result (IsPriceList inst.now kept.new.prices) }
    ensures kept { OnOk result (IsWhole inst.now kept.new) }
{
    for t in 1..inst.periods() + 1 {
        let target = kept.beside.worth + 1;
        let _switched = kept.try_tail(alloc, inst, starts, t, target)?;
    }
    Ok(())
}

/// An ascent from a list, in which these exclusions may get prices. It first aims above the worth by so many
/// thousandths of the range of bases.
fn ascend(
    alloc: Global,
    inst: &Instance,
    starts: &[u32],
    kept: Kept,
    spots: Vec<Spot>,
    thousandths: i64,
) -> Result<Kept, AllocError>
    requires prices { IsPriceList inst.now kept.prices }
    requires kept { IsWhole inst.now kept }
    requires spots { AreSpots inst.now spots.items }
    requires starts { AreAllowedStarts inst.now starts.now }
    ensures in_range { IfOk result (λ new. IsPriceList inst.now new.prices) }
    ensures kept { IfOk result (IsWhole inst.now) }
{
    let mut ascent = Ascent::new(
        alloc,
        inst,
        &kept.prices,
        kept.bases.as_slice(),
        spots,
        starts,
    )?;
    let above = (ascent.range() / 1000).saturating_mul(thousandths);
    ascent.ascend(ROUNDS, above);
    let mut prices = kept.prices;
    ascent.put(alloc, &mut prices)?;
    whole(alloc, inst, prices, starts)
}

/// A list to begin the ladder at, from a list without prices of exclusions.
pub(crate) fn first_phase(
    alloc: Global,
    inst: &Instance,
    starts: &[u32],
    from: Kept,
) -> Result<Kept, AllocError>
    requires prices { IsPriceList inst.now from.prices }
    requires kept { IsWhole inst.now from }
    requires starts { AreAllowedStarts inst.now starts.now }
    ensures in_range { IfOk result (λ new. IsPriceList inst.now new.prices) }
    ensures kept { IfOk result (IsWhole inst.now) }
{
    let mut kept = from;
    switch_tails(alloc, inst, starts, &mut kept)?;
    let mut kept = ascend(alloc, inst, starts, kept, all_spots(alloc, inst)?, WIDE)?;
    switch_tails(alloc, inst, starts, &mut kept)?;
    let spots = priced_spots(alloc, inst, &kept.prices)?;
    let mut kept = ascend(alloc, inst, starts, kept, spots, NARROW)?;
    switch_tails(alloc, inst, starts, &mut kept)?;
    Ok(kept)
}
