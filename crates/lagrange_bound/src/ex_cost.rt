//! What prices of exclusions add to the price of a start.
ghost use Rattle.std.specs.Prelude.{◌≡◌, ℕ, ◌<◌, ◌≤◌, ◌^◌, ◌*◌, ◌+◌, length, IsTrue};
ghost use Rattle.instance_model.specs.Tables.{is_allowed, in_run as in_run_of};
ghost use Rattle.duration_calendar.specs.Windows.{in_window};
ghost use Rattle.lagrange_bound.specs.Prices.{IsPriceList, IsExPrice};
ghost use Rattle.lagrange_bound.specs.Worth.{times_named, ex_share, ex_part};

use crate::{ExPrice, Prices};
use duration_calendar::{Window, in_run, run};
use instance_model::{Exclusion, Instance};

/// How often an exclusion names intervention `i`.
fn times_named(exclusion: Exclusion, i: u32) -> u32
    ensures value { result ≡ times_named exclusion i }
    ensures small { result ≤ 2 }
{
    (exclusion.first == i) as u32 + (exclusion.second == i) as u32
}

/// What the price of an exclusion adds to intervention `i` over its run, in units of 10^12.
fn ex_cost_of(inst: &Instance, x: ExPrice, i: u32, window: Window) -> u64
    requires price { IsExPrice inst.now x }
    requires window { (t : ℕ) → in_window window t ≡ in_run_of inst.now i window.from t }
    ensures value { result ≡ ex_share inst.now x i window.from }
    ensures small { result ≤ 2_000_000_000 }
{
    if !in_run(window, x.period) {
        return 0;
    }
    x.value as u64 * times_named(inst.exclusion(x.exclusion), i) as u64
}

/// What the prices of exclusions add at start `s` of intervention `i`, in units of 10^12.
pub(crate) fn ex_cost(inst: &Instance, prices: &Prices, i: u32, s: u32) -> u64
    requires number { i < length inst.now.names }
    requires allowed { IsTrue (is_allowed inst.now i s) }
    requires prices { IsPriceList inst.now prices.now }
    ensures value { result ≡ ex_part inst.now prices.now.ex i s }
    ensures small { result ≤ 2 ^ 25 * 2_000_000_000 }
{
    inst.fits();
    let window = run(inst, i, s);
    let mut cost = 0;
    for x in prices.ex_prices() {
        cost += ex_cost_of(inst, *x, i, window);
    }
    cost
}
