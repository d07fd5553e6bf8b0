//! The best numbers as a refined price list.
ghost use Rattle.std.specs.Prelude.{◌≡◌, ◌*◌, ◌<◌, length, IfOk};
ghost use Rattle.lagrange_bound.specs.Prices.{IsPriceList};

use crate::band::Band;
use crate::clique::{Set, Spot};
use crate::clique_list::cliques_of;
use crate::number::Number;
use crate::place::band_place;
use crate::tail::Tail;
use crate::tail_list::push_tail;
use crate::units::Units;
use instance_model::Instance;
use lagrange_bound::Prices;
use refined_prices::{GroupTail, Offset, RefinedPrices};
use std::alloc::{AllocError, Global};

/// Puts the best prices on the limits of resource `c` into a list.
fn put_bands(inst: &Instance, units: Units, prices: &mut Prices, bands: &[Band], c: u32)
    requires prices { IsPriceList inst.now prices.old }
    requires each { length bands.now ≡ length inst.now.resource_names * inst.now.periods }
    requires number { c < length inst.now.resource_names }
    ensures { IsPriceList inst.now prices.new }
{
    for t in 1..inst.periods() + 1 {
        let (upper, lower) = bands[band_place(inst, c, t)].best();
        prices.set_up(inst, c, t, units.limit_price(upper));
        prices.set_lo(inst, c, t, units.limit_price(lower));
    }
}

/// The best prices on limits.
fn limit_prices(
    alloc: Global,
    inst: &Instance,
    units: Units,
    bands: &[Band],
) -> Result<Prices, AllocError>
    requires { length bands.now ≡ length inst.now.resource_names * inst.now.periods }
    ensures { IfOk result (IsPriceList inst.now) }
{
    let mut prices = Prices::zero(alloc, inst)?;
    for c in 0..inst.resources() {
        put_bands(inst, units, &mut prices, bands, c);
    }
    Ok(prices)
}

/// The best groups of all periods, and their offsets.
fn tails_of(
    alloc: Global,
    units: Units,
    weight: i64,
    tails: &[Option<Tail>],
) -> Result<(Vec<Option<GroupTail>>, Vec<Offset>), AllocError> {
    let mut groups = Vec::with_capacity(alloc, tails.len())?;
    let mut offsets = Vec::new(alloc);
    let mut period: u32 = 0;
    for slot in tails {
        period = period.saturating_add(1);
        match slot {
            Some(tail) => {
                let put = push_tail(alloc, units, weight, tail, period, &mut offsets)?;
                groups.push(Some(put))?;
            }
            None => groups.push(None)?,
        }
    }
    Ok((groups, offsets))
}

/// The best numbers as a list.
pub(crate) fn list_of(
    alloc: Global,
    inst: &Instance,
    units: Units,
    weight: i64,
    bands: &[Band],
    sets: &[Set],
    spots: &[Spot],
    charges: &[Number],
    tails: &[Option<Tail>],
) -> Result<RefinedPrices, AllocError>
    requires { length bands.now ≡ length inst.now.resource_names * inst.now.periods }
    ensures { IfOk result (λ list. IsPriceList inst.now list.prices) }
{
    let prices = limit_prices(alloc, inst, units, bands)?;
    let cliques = cliques_of(alloc, units, sets, spots, charges)?;
    let (groups, offsets) = tails_of(alloc, units, weight, tails)?;
    Ok(RefinedPrices::from_parts(prices, true, groups, offsets, cliques))
}
