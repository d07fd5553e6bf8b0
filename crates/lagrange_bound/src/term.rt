//! What one period of a run adds to the base of a start.
ghost use Rattle.std.specs.Prelude.{◌≡◌, ◌+◌, ◌-◌, ◌*◌, ◌^◌, ◌<◌, ◌≤◌, pos, ◌+ℤ◌, ◌-ℤ◌, ◌*ℤ◌, All, Some, length};
ghost use Rattle.std.specs.Prelude.{IsTrue, option_map, unsigned_abs};
ghost use Rattle.fixed_num.specs.Sums.{sum_below};
ghost use Rattle.instance_model.specs.Tables.{is_allowed, in_run, risk_of, scenarios_of};
ghost use Rattle.lagrange_bound.specs.Least.{least_over};
ghost use Rattle.lagrange_bound.specs.Prices.{IsTail};
ghost use Rattle.lagrange_bound.specs.Bases.{tail_part, term_of};

use crate::Tail;
use fixed_num::{Steps, floor_div};
use instance_model::Instance;
use std::sync::ledger::Ledger;

/// The sum of the risks of intervention `i` at start `s` in period `t`, over the scenarios.
fn sum_of<L: Ledger>(inst: &Instance, i: u32, s: u32, t: u32, steps: &mut Steps<L>) -> i128
    requires number { i < length inst.now.names }
    requires allowed { IsTrue (is_allowed inst.now i s) }
    requires running { IsTrue (in_run inst.now i s t) }
    requires from { 1 ≤ t }
    requires to { t ≤ inst.now.periods }
    ensures value { result ≡ sum_below (scenarios_of inst.now t) (λ k. risk_of inst.now i s t (k + 1)) }
    ensures small { unsigned_abs result ≤ 1024 * 10 ^ 20 }
{
    let mut sum: i128 = 0;
    for k in 0..inst.scenarios(t) {
        sum += inst.risk_cell(i, s, t, k + 1, steps).count();
    }
    sum
}

/// The least of the risks of intervention `i` at start `s` in period `t`, over the places: 0 where there is none.
fn least_of<L: Ledger>(
    inst: &Instance,
    places: &[u32],
    i: u32,
    s: u32,
    t: u32,
    steps: &mut Steps<L>,
) -> i128
    requires number { i < length inst.now.names }
    requires allowed { IsTrue (is_allowed inst.now i s) }
    requires running { IsTrue (in_run inst.now i s t) }
    requires from { All (λ k. 1 ≤ k) places.now }
    requires to { All (λ k. k ≤ scenarios_of inst.now t) places.now }
    ensures value { result ≡ least_over (risk_of inst.now i s t) places.now }
    ensures small { unsigned_abs result ≤ 10 ^ 20 }
{
    if places.len() == 0 {
        return 0;
    }
    let mut least = inst.risk_cell(i, s, t, places[0], steps).count();
    for j in 1..places.len() {
        least = least.min(inst.risk_cell(i, s, t, places[j], steps).count());
    }
    least
}

/// How far `n` times the least is above the sum, times a weight.
fn weighted_gap(weight: u32, n: u32, least: i128, sum: i128) -> i128
    requires weight { weight ≤ 1000 }
    requires few { n ≤ 1024 }
    requires least { unsigned_abs least ≤ 10 ^ 20 }
    requires sum { unsigned_abs sum ≤ 1024 * 10 ^ 20 }
    ensures value { result ≡ pos weight *ℤ (pos n *ℤ least -ℤ sum) }
    ensures small { unsigned_abs result ≤ 1000 * 2 * 1024 * 10 ^ 20 }
{
    weight as i128 * (n as i128 * least - sum)
}

/// What a tail adds: its weight times `n` times the least over its places less the
/// sum, for the `n` scenarios of period `t`.
fn part_of<L: Ledger>(
    inst: &Instance,
    tail: Option<&Tail>,
    sum: i128,
    i: u32,
    s: u32,
    t: u32,
    steps: &mut Steps<L>,
) -> i128
    requires number { i < length inst.now.names }
    requires allowed { IsTrue (is_allowed inst.now i s) }
    requires running { IsTrue (in_run inst.now i s t) }
    requires from { 1 ≤ t }
    requires to { t ≤ inst.now.periods }
    requires tail { (some : _) → tail ≡ Some some → IsTail inst.now t some.now }
    requires sum { sum ≡ sum_below (scenarios_of inst.now t) (λ k. risk_of inst.now i s t (k + 1)) }
    requires small { unsigned_abs sum ≤ 1024 * 10 ^ 20 }
    ensures value { result
        ≡ tail_part (scenarios_of inst.now t) (risk_of inst.now i s t) (option_map (λ tail. tail.now) tail.entry) }
    ensures small { unsigned_abs result ≤ 1000 * 2 * 1024 * 10 ^ 20 }
{
    let Some(tail) = tail else {
        return 0;
    };
    let least = least_of(inst, tail.places.as_slice(), i, s, t, steps);
    weighted_gap(tail.weight, inst.scenarios(t), least, sum)
}

/// The sum weighted by `alpha` in millionths, and a tail's part by the rest, a
/// thousand times where the part counts thousandths.
fn fraction_of(alpha: u32, sum: i128, part: i128) -> i128
    requires alpha { alpha ≤ 1_000_000 }
    requires sum { unsigned_abs sum ≤ 1024 * 10 ^ 20 }
    requires part { unsigned_abs part ≤ 1000 * 2 * 1024 * 10 ^ 20 }
    ensures value { result ≡ (pos (1000 * alpha) *ℤ sum) +ℤ (pos (1_000_000 - alpha) *ℤ part) }
    ensures small { unsigned_abs result ≤ 10 ^ 34 }
{
    (1000 * alpha) as i128 * sum + (1_000_000 - alpha) as i128 * part
}

/// The term of intervention `i` at start `s` in period `t`: one floor.
pub(crate) fn term<L: Ledger>(
    inst: &Instance,
    tail: Option<&Tail>,
    i: u32,
    s: u32,
    t: u32,
    steps: &mut Steps<L>,
) -> i128
    requires number { i < length inst.now.names }
    requires allowed { IsTrue (is_allowed inst.now i s) }
    requires running { IsTrue (in_run inst.now i s t) }
    requires from { 1 ≤ t }
    requires to { t ≤ inst.now.periods }
    requires tail { (some : _) → tail ≡ Some some → IsTail inst.now t some.now }
    ensures value { result ≡ term_of inst.now (option_map (λ tail. tail.now) tail.entry) i s t }
    ensures small { unsigned_abs result ≤ 3 * 10 ^ 26 }
{
    inst.fits();
    let sum = sum_of(inst, i, s, t, steps);
    let part = part_of(inst, tail, sum, i, s, t, steps);
    let fraction = fraction_of(inst.alpha(), sum, part);
    floor_div(fraction, (1000 * inst.scenarios(t)) as i128)
}
