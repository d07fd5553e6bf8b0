//! Starts whose kept numbers are least, and sums over one start for each intervention.
ghost use Rattle.std.specs.Prelude.{◌≡◌, ◌+◌, ◌*◌, ◌<◌, ◌≤◌, ◌≤ℤ◌, ◌^◌, length, IfOk, IsTrue, unsigned_abs};
ghost use Rattle.instance_model.specs.Tables.{is_allowed};
ghost use Rattle.instance_model.specs.Plans.{AreAllowedStarts};
ghost use Rattle.price_ladder.specs.Places.{IsPlace};
ghost use Rattle.price_ladder.specs.Kept.{kept_at, AreSmall, AreLeast, IsLeastStart, sum_over, slope_of};
ghost use Rattle.price_ladder.specs.Weights.{weight_of};

use crate::Place;
use crate::entries::entry;
use crate::weight::{fixed_weight, weight};
use instance_model::Instance;
use std::alloc::{AllocError, Global};

/// Start `s` of intervention `i` where it is allowed and its kept number is less than that of `best`, or else `best`.
fn better_start(inst: &Instance, entries: &[i128], i: u32, best: u32, s: u32) -> u32
    requires each { length entries.now ≡ length inst.now.names * inst.now.periods }
    requires number { i < length inst.now.names }
    requires best { IsTrue (is_allowed inst.now i best) }
    ensures allowed { IsTrue (is_allowed inst.now i result) }
    ensures before { kept_at inst.now entries.now i result ≤ℤ kept_at inst.now entries.now i best }
    ensures here { IsTrue (is_allowed inst.now i s) →
        kept_at inst.now entries.now i result ≤ℤ kept_at inst.now entries.now i s }
{
    if !inst.allowed(i, s) {
        return best;
    }
    if entry(inst, entries, i, best) <= entry(inst, entries, i, s) {
        return best;
    }
    s
}

/// The first start of intervention `i` whose kept number is least, sought from an allowed start on.
fn least_start(inst: &Instance, entries: &[i128], i: u32, allowed: u32) -> u32
    requires each { length entries.now ≡ length inst.now.names * inst.now.periods }
    requires number { i < length inst.now.names }
    requires allowed { IsTrue (is_allowed inst.now i allowed) }
    ensures { IsLeastStart inst.now entries.now i result }
{
    inst.fits();
    let mut best = allowed;
    for s in 1..inst.tmax(i) + 1 {
        best = better_start(inst, entries, i, best, s);
    }
    best
}

/// A start whose kept number is least, for each intervention.
pub(crate) fn least_starts(
    alloc: Global,
    inst: &Instance,
    entries: &[i128],
    starts: &[u32],
) -> Result<Vec<u32>, AllocError>
    requires each { length entries.now ≡ length inst.now.names * inst.now.periods }
    requires starts { AreAllowedStarts inst.now starts.now }
    ensures { IfOk result (λ choice. AreLeast inst.now entries.now choice.items) }
{
    let count = inst.interventions();
    let mut choice = Vec::with_capacity(alloc, count as usize)?;
    for i in 0..count {
        choice.push(least_start(inst, entries, i, starts[i as usize]))?;
    }
    Ok(choice)
}

/// The sum of the kept numbers of these starts.
pub(crate) fn entry_sum(inst: &Instance, entries: &[i128], starts: &[u32]) -> i128
    requires entries { AreSmall inst.now (3 * 10 ^ 33) entries.now }
    requires starts { AreAllowedStarts inst.now starts.now }
    ensures value { result ≡ sum_over inst.now (kept_at inst.now entries.now) starts.now }
    ensures small { unsigned_abs result ≤ 1024 * 3 * 10 ^ 33 }
{
    let mut sum: i128 = 0;
    for i in 0..inst.interventions() {
        sum += entry(inst, entries, i, starts[i as usize]);
    }
    sum
}

/// The sum of the weights of these starts.
fn weight_sum(inst: &Instance, place: Place, starts: &[u32]) -> i128
    requires place { IsPlace inst.now place }
    requires starts { AreAllowedStarts inst.now starts.now }
    ensures value { result ≡ sum_over inst.now (weight_of inst.now place) starts.now }
    ensures small { unsigned_abs result ≤ 1024 * 10 ^ 20 }
{
    let mut sum: i128 = 0;
    for i in 0..inst.interventions() {
        sum += weight(inst, place, i, starts[i as usize]);
    }
    sum
}

/// What one more of the number at a place adds to the prices of these starts, and to what is fixed.
pub(crate) fn slope(inst: &Instance, place: Place, starts: &[u32]) -> i128
    requires place { IsPlace inst.now place }
    requires starts { AreAllowedStarts inst.now starts.now }
    ensures value { result ≡ slope_of inst.now place starts.now }
    ensures small { unsigned_abs result ≤ 1026 * 10 ^ 20 }
{
    weight_sum(inst, place, starts) + fixed_weight(inst, place)
}
