//! Whether the numbers of a line are in their ranges.
ghost use Rattle.std.specs.Prelude.{◌≤◌, ◌↔◌, IsTrue, All};
ghost use Rattle.std.specs.Bool.{OnTrue};
ghost use Rattle.lagrange_bound.specs.Least.{AscendAbove};
ghost use Rattle.lagrange_bound.specs.Prices.{IsTail};
ghost use Rattle.certificate_text.specs.Grammar.{IsLimitPrice};
ghost use Rattle.certificate_text.specs.read.Reading.{IsTailOf, IsExPriceOf};

use instance_model::Instance;

/// The largest price.
const MOST_PRICE: u64 = 1_000_000_000;

/// Whether a number that counts from 1 is that of one of `count` things.
pub fn counts_to(n: u64, count: u32) -> bool
    ensures { IsTrue result ↔ ((1 ≤ n) × (n ≤ count)) }
{
    1 <= n && n <= u64::from(count)
}

/// Whether the numbers of a price on a limit are in range.
pub fn fits_limit(inst: &Instance, c: u64, t: u64, v: u64) -> bool
    ensures exact { IsTrue result ↔ IsLimitPrice inst.now c t v }
    ensures small { OnTrue result ((c ≤ 32) × (t ≤ 512)) }
{
    counts_to(c, inst.resources()) && counts_to(t, inst.periods()) && 1 <= v && v <= MOST_PRICE
}

/// Whether the numbers of a tail are in range.
pub fn fits_tail(inst: &Instance, t: u64, weight: u64, places: &[u64]) -> bool
    ensures exact { IsTrue result ↔ IsTailOf inst.now t (record { weight = weight; places = places.now }) }
    ensures small { OnTrue result (t ≤ 512) }
{
    if !counts_to(t, inst.periods()) {
        return false;
    }
    is_tail(inst, t as u32, weight, places)
}

fn is_tail(inst: &Instance, t: u32, weight: u64, places: &[u64]) -> bool
    requires from { 1 ≤ t }
    requires to { t ≤ inst.now.periods }
    ensures { IsTrue result ↔ IsTail inst.now t (record { weight = weight; places = places.now }) }
{
    let scenarios = inst.scenarios(t);
    let rank = inst.rank(t);
    1 <= weight
        && weight <= 1000
        && scenarios as usize + 1 <= places.len() + rank as usize
        && ascend_to(places, scenarios)
}

/// Whether the numbers strictly ascend from 1 at least to `most` at most.
fn ascend_to(places: &[u64], most: u32) -> bool
    ensures { IsTrue result ↔ (AscendAbove 0 places.now × All (λ k. k ≤ most) places.now) }
{
    let mut last = 0;
    for place in places {
        if *place <= last {
            return false;
        }
        if *place > u64::from(most) {
            return false;
        }
        last = *place;
    }
    true
}

/// Whether the numbers of the price of an exclusion are in range.
pub fn fits_ex(inst: &Instance, e: u64, t: u64, v: u64) -> bool
    ensures exact { IsTrue result ↔ IsExPriceOf inst.now e t v }
    ensures small { OnTrue result ((e ≤ 65_536) × (t ≤ 512)) }
{
    if !counts_to(e, inst.exclusions()) || !counts_to(t, inst.periods()) {
        return false;
    }
    let season = inst.exclusion((e - 1) as u32).season;
    inst.in_season(season, t as u32) && 1 <= v && v <= MOST_PRICE
}
