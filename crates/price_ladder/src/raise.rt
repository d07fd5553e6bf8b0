//! Raised lists: the ladder goes on from the list of the first phase, or else climbs from zeros.
ghost use Rattle.std.specs.Prelude.{◌≡◌, ◌≤◌, ◌≤ℤ◌, length, IfOk, IfSome};
ghost use Rattle.instance_model.specs.Plans.{AreAllowedStarts};
ghost use Rattle.lagrange_bound.specs.Prices.{IsPriceList, zero_list};
ghost use Rattle.lagrange_bound.specs.Worth.{price_total};
ghost use Rattle.price_ladder.specs.Raised.{root_worth, least_total, IsRaised};

use crate::budget::is_small;
use crate::climb::climb;
use crate::kept::zeros;
use crate::phase::first_phase;
use instance_model::Instance;
use lagrange_bound::Prices;
use std::alloc::{AllocError, Global};

/// The ladder from the list of the first phase, where that isn't below the list of zeros, and what the ladder leads to
/// isn't too large.
fn raise_further(
    alloc: Global,
    inst: &Instance,
    starts: &[u32],
) -> Result<Option<Prices>, AllocError>
    requires { AreAllowedStarts inst.now starts.now }
    ensures in_range { IfOk result (λ found. IfSome found (IsPriceList inst.now)) }
    ensures raised { IfOk result (λ found. IfSome found (IsRaised inst.now starts.now)) }
    ensures not_below_zeros { IfOk result (λ found. IfSome found (λ prices.
        least_total inst.now ≤ℤ root_worth inst.now prices)) }
    ensures small { IfOk result (λ found. IfSome found (λ prices. price_total prices ≤ 40_000_000_000)) }
    ensures few_exclusions { IfOk result (λ found. IfSome found (λ prices. length prices.ex ≤ 400)) }
{
    let zero = zeros(alloc, inst, starts)?;
    let least = zero.beside.worth;
    let mut kept = first_phase(alloc, inst, starts, zero)?;
    if kept.beside.worth < least {
        return Ok(None);
    }
    climb(alloc, inst, starts, &mut kept)?;
    if !is_small(inst, &kept.prices) {
        return Ok(None);
    }
    Ok(Some(kept.prices))
}

/// The ladder from zeros.
fn raise_from_zeros(alloc: Global, inst: &Instance, starts: &[u32]) -> Result<Prices, AllocError>
    requires { AreAllowedStarts inst.now starts.now }
    ensures in_range { IfOk result (IsPriceList inst.now) }
    ensures raised { IfOk result (IsRaised inst.now starts.now) }
    ensures not_below_zeros { IfOk result (λ prices. least_total inst.now ≤ℤ root_worth inst.now prices) }
    ensures small { IfOk result (λ prices. price_total prices ≤ 40_000_000_000) }
    ensures few_exclusions { IfOk result (λ prices. length prices.ex ≤ 400) }
{
    let mut zero = zeros(alloc, inst, starts)?;
    climb(alloc, inst, starts, &mut zero)?;
    Ok(zero.prices)
}

/// A list that is raised for a plan, given by one allowed start for each intervention. Fast: a first phase seeks a list
/// of great worth, from which the ladder takes the first step in a fixed order that gains enough, until there is none;
/// the prices of all starts are kept, and a step is looked at closely only where one start of least price for each
/// intervention doesn't refuse it.
pub fn raise_prices(alloc: Global, inst: &Instance, starts: &[u32]) -> Result<Prices, AllocError>
    requires { AreAllowedStarts inst.now starts.now }
    ensures in_range { IfOk result (IsPriceList inst.now) }
    ensures raised { IfOk result (IsRaised inst.now starts.now) }
    ensures not_below_zeros { IfOk result (λ prices. least_total inst.now ≤ℤ root_worth inst.now prices) }
    ensures zeros { IfOk result (λ _. root_worth inst.now (zero_list inst.now) ≡ least_total inst.now) }
    ensures small { IfOk result (λ prices. price_total prices ≤ 40_000_000_000) }
    ensures few_exclusions { IfOk result (λ prices. length prices.ex ≤ 400) }
{
    match raise_further(alloc, inst, starts)? {
        Some(prices) => Ok(prices),
        None => raise_from_zeros(alloc, inst, starts),
    }
}
