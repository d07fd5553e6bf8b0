//! What prices on the limits of bands add to the price of a start.
ghost use Rattle.std.specs.Prelude.{◌≡◌, ◌<◌, ◌≤◌, ◌^◌, ◌*◌, ◌+◌, length, IsTrue, unsigned_abs};
ghost use Rattle.fixed_num.specs.Sums.{sum_below};
ghost use Rattle.instance_model.specs.Tables.{is_allowed, in_run};
ghost use Rattle.lagrange_bound.specs.Prices.{IsPriceList};
ghost use Rattle.lagrange_bound.specs.Worth.{band_share, band_part};

use crate::Prices;
use duration_calendar::run;
use instance_model::Instance;

/// What the prices on the limits of resource `c` in period `t` of the run add.
fn band_cost_in(inst: &Instance, prices: &Prices, i: u32, s: u32, c: u32, t: u32) -> i128
    requires number { i < length inst.now.names }
    requires allowed { IsTrue (is_allowed inst.now i s) }
    requires prices { IsPriceList inst.now prices.now }
    requires resource { c < length inst.now.resource_names }
    requires from { 1 ≤ t }
    requires to { t ≤ inst.now.periods }
    requires running { IsTrue (in_run inst.now i s t) }
    ensures value { result ≡ band_share inst.now prices.now i s c t }
    ensures small { unsigned_abs result ≤ 10 ^ 29 }
{
    let up = prices.up(inst, c, t);
    let lo = prices.lo(inst, c, t);
    if up == lo {
        return 0;
    }
    (up as i128 - lo as i128) * inst.load(i, s, c, t).count()
}

/// What the prices on the limits of resource `c` add.
fn band_cost_of(inst: &Instance, prices: &Prices, i: u32, s: u32, c: u32) -> i128
    requires number { i < length inst.now.names }
    requires allowed { IsTrue (is_allowed inst.now i s) }
    requires prices { IsPriceList inst.now prices.now }
    requires resource { c < length inst.now.resource_names }
    ensures value { result ≡ sum_below inst.now.periods (λ u. band_share inst.now prices.now i s c (u + 1)) }
    ensures small { unsigned_abs result ≤ 512 * 10 ^ 29 }
{
    inst.fits();
    let window = run(inst, i, s);
    let mut cost: i128 = 0;
    for t in window.from..window.past {
        cost += band_cost_in(inst, prices, i, s, c, t);
    }
    cost
}

/// What the prices on the limits of all bands add at start `s` of intervention `i`.
pub(crate) fn band_cost(inst: &Instance, prices: &Prices, i: u32, s: u32) -> i128
    requires number { i < length inst.now.names }
    requires allowed { IsTrue (is_allowed inst.now i s) }
    requires prices { IsPriceList inst.now prices.now }
    ensures value { result ≡ band_part inst.now prices.now i s }
    ensures small { unsigned_abs result ≤ 16_384 * 10 ^ 29 }
{
    let mut cost: i128 = 0;
    for c in 0..inst.resources() {
        cost += band_cost_of(inst, prices, i, s, c);
    }
    cost
}
