//! The numbers of a price list by their places.
ghost use Rattle.std.specs.Prelude.{◌≡◌, ◌≤◌, OnOk};
ghost use Rattle.lagrange_bound.specs.Prices.{IsPriceList};
ghost use Rattle.price_ladder.specs.Places.{IsPlace, value_at, IsWithValue};

use instance_model::Instance;
use lagrange_bound::Prices;
use std::alloc::AllocError;

/// The place of a number in a price list.
#[derive(Clone, Copy, Debug, PartialEq, Eq)]
pub enum Place {
    /// The price on the upper limit of resource `c` in period `t`.
    Upper { c: u32, t: u32 },
    /// The price on the lower limit of resource `c` in period `t`.
    Lower { c: u32, t: u32 },
    /// The price of exclusion `e` in period `t` of its season.
    Excluded { e: u32, t: u32 },
}

/// The number at a place.
pub(crate) fn value_at(inst: &Instance, prices: &Prices, place: Place) -> u32
    requires prices { IsPriceList inst.now prices.now }
    requires place { IsPlace inst.now place }
    ensures value { result ≡ value_at inst.now prices.now place }
    ensures small { result ≤ 1_000_000_000 }
{
    match place {
        Place::Upper { c, t } => prices.up(inst, c, t),
        Place::Lower { c, t } => prices.lo(inst, c, t),
        Place::Excluded { e, t } => prices.ex(inst, e, t),
    }
}

/// Sets the number at a place.
pub(crate) fn set_value(
    inst: &Instance,
    prices: &mut Prices,
    place: Place,
    v: u32,
) -> Result<(), AllocError>
    requires prices { IsPriceList inst.now prices.old }
    requires place { IsPlace inst.now place }
    requires small { v ≤ 1_000_000_000 }
    ensures changed { OnOk result (IsWithValue inst.now prices.old prices.new place v) }
    ensures in_range { OnOk result (IsPriceList inst.now prices.new) }
{
    match place {
        Place::Upper { c, t } => prices.set_up(inst, c, t, v),
        Place::Lower { c, t } => prices.set_lo(inst, c, t, v),
        Place::Excluded { e, t } => return prices.set_ex(inst, e, t, v),
    }
    Ok(())
}
