//! The price of a start, exactly as the definition has it.
ghost use Rattle.std.specs.Prelude.{◌≡◌, ◌<◌, ◌≤◌, ◌*◌, ◌^◌, length, IsTrue, unsigned_abs};
ghost use Rattle.instance_model.specs.Tables.{is_allowed};
ghost use Rattle.lagrange_bound.specs.Prices.{IsPriceList};
ghost use Rattle.lagrange_bound.specs.Worth.{price_of, ex_part};

use crate::band_cost::band_cost;
use crate::ex_cost::ex_cost;
use crate::{Goal, Prices};
use instance_model::Instance;

/// The price of intervention `i` at start `s`, where the prices of exclusions add `ex` times 10^12.
pub(crate) fn price_with<G: Goal>(
    goal: &G,
    inst: &Instance,
    prices: &Prices,
    i: u32,
    s: u32,
    ex: u64,
) -> i128
    requires number { i < length inst.now.names }
    requires allowed { IsTrue (is_allowed inst.now i s) }
    requires prices { IsPriceList inst.now prices.now }
    requires ex { ex ≡ ex_part inst.now prices.now.ex i s }
    requires few { ex ≤ 2 ^ 25 * 2_000_000_000 }
    ensures value { result ≡ price_of (G.base_gives goal.now inst.now prices.now) inst.now prices.now i s }
    ensures small { unsigned_abs result < 8_000_000_000_000_000_000_000_000_000_000_000 }
{
    let base = goal.base(inst, prices, i, s);
    base + band_cost(inst, prices, i, s) + 1_000_000_000_000 * ex as i128
}

/// The price of intervention `i` at start `s`: its base, and what the prices add. Takes no memory.
pub fn price<G: Goal>(goal: &G, inst: &Instance, prices: &Prices, i: u32, s: u32) -> i128
    requires number { i < length inst.now.names }
    requires allowed { IsTrue (is_allowed inst.now i s) }
    requires prices { IsPriceList inst.now prices.now }
    ensures value { result ≡ price_of (G.base_gives goal.now inst.now prices.now) inst.now prices.now i s }
    ensures small { unsigned_abs result < 10 ^ 34 }
{
    price_with(goal, inst, prices, i, s, ex_cost(inst, prices, i, s))
}
