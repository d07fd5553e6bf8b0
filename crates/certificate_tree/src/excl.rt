//! The test of an `excl` leaf: its contract says that it is exact.
ghost use Rattle.std.specs.Prelude.{◌≡◌, ℕ, ◌<◌, ◌≤◌, length, IsTrue, ◌↔◌};
ghost use Rattle.duration_calendar.specs.Windows.{IsInHorizon};
ghost use Rattle.instance_model.specs.Tables.{is_allowed, tmax};
ghost use Rattle.lagrange_bound.specs.Boxes.{span_of};
ghost use Rattle.certificate_tree.specs.Holding.{ExclHolds};
ghost use Rattle.certificate_tree.specs.Meetings.{MeetsAt, MeetsEach, EachMeetsEach};

use crate::starts::span_at;
use duration_calendar::{Window, meets_in, run};
use instance_model::{Exclusion, Instance};
use lagrange_bound::Span;

/// Whether a window meets the run of intervention `i` at start `s` in a period of a season.
fn meets_at(inst: &Instance, season: u32, window: Window, i: u32, s: u32) -> bool
    requires season { season < length inst.now.season_names }
    requires horizon { IsInHorizon inst.now window }
    requires number { i < length inst.now.names }
    requires allowed { IsTrue (is_allowed inst.now i s) }
    ensures { IsTrue result ↔ MeetsAt inst.now season window i s }
{
    meets_in(inst, season, window, run(inst, i, s)).is_some()
}

/// Whether it does at each allowed start of an interval.
fn meets_each(inst: &Instance, season: u32, window: Window, i: u32, span: Span) -> bool
    requires season { season < length inst.now.season_names }
    requires horizon { IsInHorizon inst.now window }
    requires number { i < length inst.now.names }
    requires small { span.to ≤ 512 }
    ensures { IsTrue result ↔ MeetsEach inst.now season window i span }
{
    for s in span.from..span.to + 1 {
        if inst.allowed(i, s) {
            if !meets_at(inst, season, window, i, s) {
                return false;
            }
        }
    }
    true
}

/// Whether the run of the first intervention of an exclusion at each allowed start of an interval does so.
fn each_meets_each(inst: &Instance, exclusion: Exclusion, first: Span, second: Span) -> bool
    requires season { exclusion.season < length inst.now.season_names }
    requires number { exclusion.first < length inst.now.names }
    requires other { exclusion.second < length inst.now.names }
    requires small { first.to ≤ 512 }
    requires second_small { second.to ≤ 512 }
    ensures { IsTrue result ↔ EachMeetsEach inst.now exclusion first second }
{
    for s in first.from..first.to + 1 {
        if inst.allowed(exclusion.first, s) {
            let window = run(inst, exclusion.first, s);
            if !meets_each(inst, exclusion.season, window, exclusion.second, second) {
                return false;
            }
        }
    }
    true
}

/// Whether each pair of allowed starts, one of each of the two interventions of exclusion `e`, meets in a period of its
/// season; also where it names one intervention twice. An interval may end before it begins. Takes no memory.
pub fn excl_holds(inst: &Instance, spans: &[Span], e: u32) -> bool
    requires each { length spans.now ≡ length inst.now.names }
    requires ends { (i : ℕ) → i < length inst.now.names → (span_of spans.now i).to ≤ tmax inst.now i }
    requires exclusion { e < length inst.now.exclusion_names }
    ensures { IsTrue result ↔ ExclHolds inst.now spans.now e }
{
    let exclusion = inst.exclusion(e);
    let first = span_at(inst, spans, exclusion.first);
    let second = span_at(inst, spans, exclusion.second);
    each_meets_each(inst, exclusion, first, second)
}
