//! What one more of a number adds to the prices of starts, and whatever the starts are.
ghost use Rattle.std.specs.Prelude.{◌≡◌, ◌<◌, ◌≤◌, ◌*◌, ◌^◌, length, Some, IsTrue, unsigned_abs};
ghost use Rattle.instance_model.specs.Tables.{is_allowed};
ghost use Rattle.instance_model.specs.Plans.{load_at};
ghost use Rattle.lagrange_bound.specs.Worth.{times_named};
ghost use Rattle.price_ladder.specs.Places.{IsPlace};
ghost use Rattle.price_ladder.specs.Weights.{times_at, weight_of, fixed_weight};

use crate::Place;
use duration_calendar::{in_run, run};
use instance_model::{Exclusion, Instance};

/// The load of resource `c` in period `t` at start `s` of intervention `i`: 0 where it doesn't run.
fn load_at(inst: &Instance, i: u32, s: u32, c: u32, t: u32) -> i128
    requires number { i < length inst.now.names }
    requires allowed { IsTrue (is_allowed inst.now i s) }
    requires resource { c < length inst.now.resource_names }
    ensures value { result ≡ load_at inst.now c t i (Some s) }
    ensures small { unsigned_abs result < 10 ^ 20 }
{
    if !in_run(run(inst, i, s), t) {
        return 0;
    }
    inst.load(i, s, c, t).count()
}

/// How often an exclusion names intervention `i`.
fn times_named(exclusion: Exclusion, i: u32) -> u32
    ensures value { result ≡ times_named exclusion i }
    ensures small { result ≤ 2 }
{
    (exclusion.first == i) as u32 + (exclusion.second == i) as u32
}

/// How often a price of exclusion `e` in period `t` counts at start `s` of intervention `i`.
fn times_at(inst: &Instance, i: u32, s: u32, e: u32, t: u32) -> u32
    requires number { i < length inst.now.names }
    requires allowed { IsTrue (is_allowed inst.now i s) }
    requires exclusion { e < length inst.now.exclusion_names }
    ensures value { result ≡ times_at inst.now e t i s }
    ensures small { result ≤ 2 }
{
    let times = times_named(inst.exclusion(e), i);
    if times == 0 || !in_run(run(inst, i, s), t) {
        return 0;
    }
    times
}

/// What one more of the number at a place adds to the price of start `s` of intervention `i`.
pub(crate) fn weight(inst: &Instance, place: Place, i: u32, s: u32) -> i128
    requires number { i < length inst.now.names }
    requires allowed { IsTrue (is_allowed inst.now i s) }
    requires place { IsPlace inst.now place }
    ensures value { result ≡ weight_of inst.now place i s }
    ensures small { unsigned_abs result < 10 ^ 20 }
{
    match place {
        Place::Upper { c, t } => load_at(inst, i, s, c, t),
        Place::Lower { c, t } => 0 - load_at(inst, i, s, c, t),
        Place::Excluded { e, t } => 1_000_000_000_000 * times_at(inst, i, s, e, t) as i128,
    }
}

/// What one more adds whatever the starts are.
pub(crate) fn fixed_weight(inst: &Instance, place: Place) -> i128
    requires { IsPlace inst.now place }
    ensures value { result ≡ fixed_weight inst.now place }
    ensures small { unsigned_abs result < 2 * 10 ^ 20 }
{
    match place {
        Place::Upper { c, t } => 0 - inst.upper(c, t),
        Place::Lower { c, t } => inst.lower(c, t),
        Place::Excluded { .. } => -1_000_000_000_000,
    }
}
