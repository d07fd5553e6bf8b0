//! How much a price list holds, and whether that is little enough to be answered.
ghost use Rattle.std.specs.Prelude.{◌≡◌, ◌<◌, ◌≤◌, ◌*◌, ◌↔◌, ◌+◌, length, sum, IsTrue};
ghost use Rattle.lagrange_bound.specs.Prices.{IsPriceList};
ghost use Rattle.lagrange_bound.specs.Worth.{ex_total};
ghost use Rattle.lagrange_bound.specs.Worth.{price_total};

use instance_model::Instance;
use lagrange_bound::Prices;

/// The greatest sum of all numbers of a list.
const MOST: u64 = 40_000_000_000;

/// How many exclusions have a price at most.
const FEW: usize = 400;

/// The sum of the prices on all limits.
fn limit_total(inst: &Instance, prices: &Prices) -> u64
    requires { IsPriceList inst.now prices.now }
    ensures value { result ≡ sum prices.now.up + sum prices.now.lo }
    ensures small { result ≤ 16_384 * 2_000_000_000 }
{
    inst.fits();
    let periods = inst.periods();
    let mut total = 0;
    for k in 0..inst.resources() * periods {
        let c = k / periods;
        let t = k % periods + 1;
        total += u64::from(prices.up(inst, c, t)) + u64::from(prices.lo(inst, c, t));
    }
    total
}

/// The sum of the prices of exclusions.
fn exclusion_total(inst: &Instance, prices: &Prices) -> u64
    requires { IsPriceList inst.now prices.now }
    ensures value { result ≡ ex_total prices.now.ex }
    ensures small { result ≤ 33_554_432 * 1_000_000_000 }
{
    inst.fits();
    let mut total = 0;
    for x in prices.ex_prices() {
        total += x.value as u64;
    }
    total
}

/// Whether a list may be answered: its numbers aren't too great together, and few exclusions have a price.
pub(crate) fn is_small(inst: &Instance, prices: &Prices) -> bool
    requires { IsPriceList inst.now prices.now }
    ensures { IsTrue result ↔ ((price_total prices.now ≤ 40_000_000_000) × (length prices.now.ex ≤ 400)) }
{
    limit_total(inst, prices) + exclusion_total(inst, prices) <= MOST
        && prices.ex_prices().len() <= FEW
}
