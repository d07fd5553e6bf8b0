//! What prices add whatever the starts are.
ghost use Rattle.std.specs.Prelude.{◌≡◌, ◌<◌, ◌≤◌, ◌^◌, ◌*◌, ◌+◌, length, unsigned_abs};
ghost use Rattle.fixed_num.specs.Sums.{sum_below};
ghost use Rattle.lagrange_bound.specs.Prices.{IsPriceList};
ghost use Rattle.lagrange_bound.specs.Worth.{limit_share, ex_total, fixed_part};

use crate::Prices;
use instance_model::Instance;

/// What the limits of resource `c` in period `t` are worth.
fn limit_cost_in(inst: &Instance, prices: &Prices, c: u32, t: u32) -> i128
    requires prices { IsPriceList inst.now prices.now }
    requires resource { c < length inst.now.resource_names }
    requires from { 1 ≤ t }
    requires to { t ≤ inst.now.periods }
    ensures value { result ≡ limit_share inst.now prices.now c t }
    ensures small { unsigned_abs result ≤ 4 * 10 ^ 29 }
{
    let up = prices.up(inst, c, t);
    let lo = prices.lo(inst, c, t);
    lo as i128 * inst.lower(c, t) - up as i128 * inst.upper(c, t)
}

/// What the limits of resource `c` are worth.
fn limit_cost_of(inst: &Instance, prices: &Prices, c: u32) -> i128
    requires prices { IsPriceList inst.now prices.now }
    requires resource { c < length inst.now.resource_names }
    ensures value { result ≡ sum_below inst.now.periods (λ u. limit_share inst.now prices.now c (u + 1)) }
    ensures small { unsigned_abs result ≤ 512 * 4 * 10 ^ 29 }
{
    let mut cost: i128 = 0;
    for u in 0..inst.periods() {
        cost += limit_cost_in(inst, prices, c, u + 1);
    }
    cost
}

/// What the limits of all bands are worth.
fn limit_cost(inst: &Instance, prices: &Prices) -> i128
    requires { IsPriceList inst.now prices.now }
    ensures value { result ≡ sum_below (length inst.now.resource_names) (λ c.
        sum_below inst.now.periods (λ u. limit_share inst.now prices.now c (u + 1))) }
    ensures small { unsigned_abs result ≤ 16_384 * 4 * 10 ^ 29 }
{
    let mut cost: i128 = 0;
    for c in 0..inst.resources() {
        cost += limit_cost_of(inst, prices, c);
    }
    cost
}

/// The sum of the prices of exclusions.
fn ex_total(inst: &Instance, prices: &Prices) -> u64
    requires { IsPriceList inst.now prices.now }
    ensures value { result ≡ ex_total prices.now.ex }
    ensures small { result ≤ 2 ^ 25 * 1_000_000_000 }
{
    inst.fits();
    let mut sum = 0;
    for x in prices.ex_prices() {
        sum += x.value as u64;
    }
    sum
}

/// What the prices add whatever the starts are.
pub fn fixed_cost(inst: &Instance, prices: &Prices) -> i128
    requires { IsPriceList inst.now prices.now }
    ensures value { result ≡ fixed_part inst.now prices.now }
    ensures small { unsigned_abs result < 10 ^ 36 }
{
    limit_cost(inst, prices) - 1_000_000_000_000 * ex_total(inst, prices) as i128
}
