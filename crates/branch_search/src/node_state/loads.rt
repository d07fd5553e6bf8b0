//! The loads of a box, kept while one interval at a time is changed.
ghost use Rattle.std.specs.Prelude.{◌≡◌, ℕ, ◌+◌, ◌<◌, ◌≤◌, length, replicate, slice_index_or, slice_set, IfOk};
ghost use Rattle.std.specs.Prelude.{IfSome, IfNone, IsTrue};
ghost use Rattle.instance_model.specs.Tables.{is_allowed, tmax, in_run};
ghost use Rattle.duration_calendar.specs.Calendar.{IsAllowedIn};
ghost use Rattle.lagrange_bound.specs.Boxes.{span_of, HasStarts};
ghost use Rattle.certificate_lines.specs.declared.line.Side.{Side};
ghost use Rattle.certificate_tree.specs.Holding.{IsOffLimit};
ghost use Rattle.certificate_tree.specs.Loads.{least_load, greatest_load};
ghost use Rattle.branch_search.specs.node_state.KeptLoads.{IsOver, no_load};
ghost use Rattle.branch_search.specs.node_state.Bands.{IsHoldingBand, NoBandHolds, IsPart};
ghost use Rattle.branch_search.specs.node_state.Offs.{IsOff};
ghost use Rattle.branch_search.specs.node_state.Extents.{IsSmallRange, replaced, extent_at, empty_span};

use crate::node_state::band::Band;
use crate::node_state::extent::Extent;
use crate::node_state::range::LoadRange;
use crate::node_state::walk::{place_at, take_span};
use certificate_tree::Side;
use duration_calendar::{Window, run};
use instance_model::Instance;
use lagrange_bound::Span;
use std::alloc::{AllocError, Global};
use std::marker::Model;

/// A box with its loads: contracts see the box beside what is kept of them.
#[derive(Drop)]
pub struct BoxLoads {
    spans: Vec<Span>,
    /// By resource, then period.
    loads: Vec<LoadRange>,
    /// Room for a walk over the interval that is changed, as it was and as it comes to be.
    before: Vec<Extent>,
    after: Vec<Extent>,
}

impl Model for BoxLoads {
    ghost use Rattle.std.specs.Prelude.{◌≡◌, length};
    ghost use Rattle.branch_search.specs.node_state.KeptLoads.{KeptLoads};

    ghost Value = { KeptLoads };

    ghost view = { λ l. record { spans = l.spans.items; loads = l.loads.items } };

    ghost invariant = { λ l. (length l.before.items ≡ length l.loads.items)
        × (length l.after.items ≡ length l.loads.items) };
}

/// One interval without a start for each intervention.
fn no_spans(alloc: Global, inst: &Instance) -> Result<Vec<Span>, AllocError>
    ensures { IfOk result (λ spans. spans.items ≡ replicate (length inst.now.names) empty_span) }
{
    vec![in alloc; Span { from: 1, to: 0 }; inst.interventions() as usize]
}

/// Puts the loads of one interval in the place of those of another, at each place.
fn replace_loads(
    loads: &mut [LoadRange],
    before: &[Extent],
    before_count: u32,
    after: &[Extent],
    after_count: u32,
)
    requires before { length before.now ≡ length loads.old }
    requires after { length after.now ≡ length loads.old }
    requires small { (z : ℕ) → z < length loads.old → IsSmallRange (slice_index_or loads.old z no_load) }
    ensures each { length loads.new ≡ length loads.old }
    ensures replaced { (z : ℕ) → z < length loads.old → slice_index_or loads.new z no_load ≡ replaced
        (slice_index_or loads.old z no_load) (extent_at before.now z) before_count (extent_at after.now z) after_count }
{
    for z in 0..loads.len() {
        let load = &mut loads[z];
        load.replace(&before[z], before_count, &after[z], after_count);
    }
}

/// Puts the loads of a new interval of intervention `i` in the place of those of the one that it has.
fn change_loads(
    loads: &mut [LoadRange],
    before: &mut [Extent],
    after: &mut [Extent],
    inst: &Instance,
    spans: &[Span],
    i: u32,
    span: Span,
)
    requires over { IsOver inst.now (record { spans = spans.now; loads = loads.old }) }
    requires before { length before.old ≡ length loads.old }
    requires after { length after.old ≡ length loads.old }
    requires number { i < length inst.now.names }
    requires end { span.to ≤ tmax inst.now i }
    ensures over { IsOver inst.now (record { spans = slice_set spans.now i span; loads = loads.new }) }
    ensures each { length loads.new ≡ length loads.old }
    ensures before { length before.new ≡ length before.old }
    ensures after { length after.new ≡ length after.old }
{
    inst.fits();
    let was = spans[i as usize];
    let before_count = take_span(before, inst, i, was);
    let after_count = take_span(after, inst, i, span);
    replace_loads(loads, before, before_count, after, after_count);
}

/// The later one of period `past` and the end of the run of intervention `i` at start `s`, if that is allowed.
fn later_end(inst: &Instance, i: u32, s: u32, past: u32) -> u32
    requires number { i < length inst.now.names }
    requires within { past ≤ inst.now.periods + 1 }
    ensures within { result ≤ inst.now.periods + 1 }
    ensures later { past ≤ result }
    ensures run { (t : ℕ) → IsTrue (is_allowed inst.now i s) → IsTrue (in_run inst.now i s t) → t < result }
{
    if !inst.allowed(i, s) {
        return past;
    }
    past.max(run(inst, i, s).past)
}

/// The periods from the first start of an interval to the end of the last run at one of its allowed starts.
fn periods_of(inst: &Instance, i: u32, span: Span) -> Window
    requires number { i < length inst.now.names }
    requires end { span.to ≤ tmax inst.now i }
    ensures from { 1 ≤ result.from }
    ensures past { result.past ≤ inst.now.periods + 1 }
    ensures runs { (s t : ℕ) → IsAllowedIn inst.now i span.from span.to s → IsTrue (in_run inst.now i s t)
        → (result.from ≤ t) × (t < result.past) }
{
    inst.fits();
    let mut past = 1;
    for s in span.from..span.to + 1 {
        past = later_end(inst, i, s, past);
    }
    Window {
        from: span.from.max(1),
        past,
    }
}

impl BoxLoads {
    /// The loads of a box. Takes memory, as no other call does. An interval may end before it begins.
    pub fn make(alloc: Global, inst: &Instance, spans: &[Span]) -> Result<BoxLoads, AllocError>
        requires each { length spans.now ≡ length inst.now.names }
        requires ends { (i : ℕ) → i < length inst.now.names → (span_of spans.now i).to ≤ tmax inst.now i }
        ensures over { IfOk result (IsOver inst.now) }
        ensures spans { IfOk result (λ loads. loads.spans ≡ spans.now) }
    {
        let mut loads = BoxLoads::empty(alloc, inst)?;
        loads.set_spans(inst, spans);
        Ok(loads)
    }

    /// The loads of a box without a start.
    fn empty(alloc: Global, inst: &Instance) -> Result<BoxLoads, AllocError>
        ensures over { IfOk result (IsOver inst.now) }
        ensures spans { IfOk result (λ loads. loads.spans ≡ replicate (length inst.now.names) empty_span) }
    {
        inst.fits();
        let places = inst.resources() as usize * inst.periods() as usize;
        Ok(BoxLoads {
            spans: no_spans(alloc, inst)?,
            loads: vec![in alloc; LoadRange::none(); places]?,
            before: vec![in alloc; Extent::none(); places]?,
            after: vec![in alloc; Extent::none(); places]?,
        })
    }

    /// The box.
    pub fn spans(&self) -> &[Span]
        ensures { result.now ≡ self.now.spans }
    {
        self.spans.as_slice()
    }

    /// Changes the interval of intervention `i`. Walks over its load cells at the allowed starts of
    /// the interval as it was, and of the new one, where these differ. Takes no memory.
    pub fn set_span(&mut self, inst: &Instance, i: u32, span: Span)
        requires over { IsOver inst.now self.old }
        requires number { i < length inst.now.names }
        requires end { span.to ≤ tmax inst.now i }
        ensures over { IsOver inst.now self.new }
        ensures spans { self.new.spans ≡ slice_set self.old.spans i span }
    {
        if self.spans[i as usize] == span {
            return;
        }
        change_loads(
            self.loads.as_mut_slice(),
            self.before.as_mut_slice(),
            self.after.as_mut_slice(),
            inst,
            self.spans.as_slice(),
            i,
            span,
        );
        self.spans[i as usize] = span;
    }

    /// Makes the box another one. Walks over the load cells of the intervals that differ. Takes no memory.
    pub fn set_spans(&mut self, inst: &Instance, spans: &[Span])
        requires over { IsOver inst.now self.old }
        requires each { length spans.now ≡ length inst.now.names }
        requires ends { (i : ℕ) → i < length inst.now.names → (span_of spans.now i).to ≤ tmax inst.now i }
        ensures over { IsOver inst.now self.new }
        ensures spans { self.new.spans ≡ spans.now }
    {
        for i in 0..inst.interventions() {
            self.set_span(inst, i, spans[i as usize]);
        }
    }

    /// The least load of resource `c` in period `t` over the box.
    pub fn least_load(&self, inst: &Instance, c: u32, t: u32) -> i128
        requires over { IsOver inst.now self.now }
        requires resource { c < length inst.now.resource_names }
        requires from { 1 ≤ t }
        requires to { t ≤ inst.now.periods }
        ensures { result ≡ least_load inst.now self.now.spans c t }
    {
        self.loads[place_at(inst, c, t)].least.number()
    }

    /// The greatest load of resource `c` in period `t` over the box.
    pub fn greatest_load(&self, inst: &Instance, c: u32, t: u32) -> i128
        requires over { IsOver inst.now self.now }
        requires resource { c < length inst.now.resource_names }
        requires from { 1 ≤ t }
        requires to { t ≤ inst.now.periods }
        ensures { result ≡ greatest_load inst.now self.now.spans c t }
    {
        self.loads[place_at(inst, c, t)].greatest.number()
    }

    /// The limit of resource `c` in period `t` that all loads of the box leave.
    fn side_off(&self, inst: &Instance, c: u32, t: u32) -> Option<Side>
        requires over { IsOver inst.now self.now }
        requires resource { c < length inst.now.resource_names }
        requires from { 1 ≤ t }
        requires to { t ≤ inst.now.periods }
        ensures off { IfSome result (IsOffLimit inst.now self.now.spans c t) }
        ensures none { IfNone result ((side : Side) → ¬ IsOffLimit inst.now self.now.spans c t side) }
    {
        let load = &self.loads[place_at(inst, c, t)];
        if inst.upper(c, t) < load.least.number() {
            Some(Side::Over)
        } else if load.greatest.number() < inst.lower(c, t) {
            Some(Side::Under)
        } else {
            None
        }
    }

    /// A band of resource `c` in the periods of a window that all loads of the box leave.
    fn band_off(&self, inst: &Instance, c: u32, window: Window) -> Option<Band>
        requires over { IsOver inst.now self.now }
        requires resource { c < length inst.now.resource_names }
        requires from { 1 ≤ window.from }
        requires past { window.past ≤ inst.now.periods + 1 }
        ensures off { IfSome result (IsOff inst.now self.now.spans) }
        ensures none { IfNone result ((t : ℕ) (side : Side) → window.from ≤ t → t < window.past
            → ¬ IsOffLimit inst.now self.now.spans c t side) }
    {
        for t in window.from..window.past {
            if let Some(side) = self.side_off(inst, c, t) {
                return Some(Band { c, t, side });
            }
        }
        None
    }

    /// A band in the periods of a window that all loads of the box leave.
    fn band_in(&self, inst: &Instance, window: Window) -> Option<Band>
        requires over { IsOver inst.now self.now }
        requires from { 1 ≤ window.from }
        requires past { window.past ≤ inst.now.periods + 1 }
        ensures off { IfSome result (IsOff inst.now self.now.spans) }
        ensures none { IfNone result ((c t : ℕ) (side : Side) → c < length inst.now.resource_names
            → window.from ≤ t → t < window.past → ¬ IsOffLimit inst.now self.now.spans c t side) }
    {
        for c in 0..inst.resources() {
            if let Some(band) = self.band_off(inst, c, window) {
                return Some(band);
            }
        }
        None
    }

    /// A band that holds on the box, whichever it is.
    pub fn holding_band(&self, inst: &Instance) -> Option<Band>
        requires over { IsOver inst.now self.now }
        requires starts { HasStarts inst.now self.now.spans }
        ensures holds { IfSome result (IsHoldingBand inst.now self.now.spans) }
        ensures none { IfNone result (NoBandHolds inst.now self.now.spans) }
    {
        let window = Window {
            from: 1,
            past: inst.periods() + 1,
        };
        self.band_in(inst, window)
    }

    /// The same where none held while the interval of intervention `i` was `whole`, of which it is a part now.
    /// Tests the bands in the periods of the runs of `whole`, and no others.
    pub fn holding_band_by(&self, inst: &Instance, i: u32, whole: Span) -> Option<Band>
        requires over { IsOver inst.now self.now }
        requires starts { HasStarts inst.now self.now.spans }
        requires number { i < length inst.now.names }
        requires end { whole.to ≤ tmax inst.now i }
        requires part { IsPart (span_of self.now.spans i) whole }
        requires before { NoBandHolds inst.now (slice_set self.now.spans i whole) }
        ensures holds { IfSome result (IsHoldingBand inst.now self.now.spans) }
        ensures none { IfNone result (NoBandHolds inst.now self.now.spans) }
    {
        self.band_in(inst, periods_of(inst, i, whole))
    }
}
