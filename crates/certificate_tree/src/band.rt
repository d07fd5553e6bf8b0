//! The test of a `band` leaf: its contract says that it is exact.
ghost use Rattle.std.specs.Prelude.{◌≡◌, ℕ, ◌<◌, ◌≤◌, ◌^◌, ◌*◌, length, IsTrue, ◌↔◌, IfSome, IfNone, unsigned_abs};
ghost use Rattle.instance_model.specs.Tables.{is_allowed, tmax};
ghost use Rattle.lagrange_bound.specs.Boxes.{HasStarts, span_of, starts_in};
ghost use Rattle.certificate_tree.specs.Loads.{load_by_start};
ghost use Rattle.certificate_tree.specs.Extremes.{extreme, extreme_with, some_extreme, extreme_load};
ghost use Rattle.certificate_tree.specs.Holding.{BandHolds};

use crate::starts::span_at;
use certificate_lines::Side;
use duration_calendar::{in_run, run};
use fixed_num::Fixed;
use instance_model::Instance;
use lagrange_bound::Span;

/// The load of resource `c` in period `t` that intervention `i` adds at start `s`.
fn load_at_start(inst: &Instance, c: u32, t: u32, i: u32, s: u32) -> Fixed
    requires number { i < length inst.now.names }
    requires allowed { IsTrue (is_allowed inst.now i s) }
    requires resource { c < length inst.now.resource_names }
    ensures { result ≡ load_by_start inst.now c t i s }
{
    if !in_run(run(inst, i, s), t) {
        return Fixed::zero();
    }
    inst.load(i, s, c, t)
}

/// The less of two loads that are to be over their limit, the greater of two that are to be under it.
fn further(side: Side, a: Fixed, b: Fixed) -> Fixed
    ensures { result ≡ extreme side a b }
{
    let falls = b.count() < a.count();
    match side {
        Side::Over => if falls { b } else { a },
        Side::Under => if falls { a } else { b },
    }
}

/// The same where there may be no other yet.
fn furthest(side: Side, best: Option<Fixed>, load: Fixed) -> Fixed
    ensures { result ≡ extreme_with side best load }
{
    match best {
        Some(other) => further(side, other, load),
        None => load,
    }
}

/// The least or the greatest load over the allowed starts of an interval, where there is one.
fn extreme_load_in(inst: &Instance, c: u32, t: u32, side: Side, i: u32, span: Span) -> Option<Fixed>
    requires number { i < length inst.now.names }
    requires resource { c < length inst.now.resource_names }
    requires small { span.to ≤ 512 }
    ensures { result ≡ some_extreme side (load_by_start inst.now c t i) (starts_in inst.now i span) }
{
    let mut best = None;
    for s in span.from..span.to + 1 {
        if inst.allowed(i, s) {
            best = Some(furthest(side, best, load_at_start(inst, c, t, i, s)));
        }
    }
    best
}

/// The sum of these loads over all interventions, where each interval has an allowed start.
fn extreme_load_of(inst: &Instance, spans: &[Span], c: u32, t: u32, side: Side) -> Option<i128>
    requires each { length spans.now ≡ length inst.now.names }
    requires ends { (i : ℕ) → i < length inst.now.names → (span_of spans.now i).to ≤ tmax inst.now i }
    requires resource { c < length inst.now.resource_names }
    ensures value { IfSome result (λ load. load ≡ extreme_load inst.now spans.now c t side) }
    ensures small { IfSome result (λ load. unsigned_abs load ≤ 1024 * 10 ^ 20) }
    ensures starts { IfSome result (λ load. HasStarts inst.now spans.now) }
    ensures none { IfNone result (¬ HasStarts inst.now spans.now) }
{
    let mut sum: i128 = 0;
    for i in 0..inst.interventions() {
        let Some(load) = extreme_load_in(inst, c, t, side, i, span_at(inst, spans, i)) else {
            return None;
        };
        sum += load.count();
    }
    Some(sum)
}

/// Whether each interval has an allowed start, and whatever they are, the load of resource `c` in period `t` leaves the
/// limit of this side. An interval may end before it begins: it has no start then. Takes no memory.
pub fn band_holds(inst: &Instance, spans: &[Span], c: u32, t: u32, side: Side) -> bool
    requires each { length spans.now ≡ length inst.now.names }
    requires ends { (i : ℕ) → i < length inst.now.names → (span_of spans.now i).to ≤ tmax inst.now i }
    requires resource { c < length inst.now.resource_names }
    requires from { 1 ≤ t }
    requires to { t ≤ inst.now.periods }
    ensures { IsTrue result ↔ BandHolds inst.now spans.now c t side }
{
    let Some(load) = extreme_load_of(inst, spans, c, t, side) else {
        return false;
    };
    match side {
        Side::Over => inst.upper(c, t) < load,
        Side::Under => load < inst.lower(c, t),
    }
}
