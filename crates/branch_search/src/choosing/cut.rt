//! Splits of which one part is closed at once: the first or the last starts of an interval are cut off where a band or
//! an exclusion refutes a box with them alone, or where its worth is at least the value of the best plan.
ghost use Rattle.std.specs.Prelude.{◌<◌, ◌≤◌, length};
ghost use Rattle.branch_search.specs.node_state.KeptLoads.{IsOver};

use crate::choosing::load_ranges::{LoadRange, LoadRanges};
use crate::choosing::place_loads::{PlaceCell, load_in, place_of, places};
use crate::choosing::separation::{meets_at, signed};
use crate::choosing::start_prices::{is_allowed, least_price, load_at, price_at};
use crate::node_state::BoxLoads;
use certificate_tree::Side;
use duration_calendar::run;
use instance_model::Instance;
use lagrange_bound::{PriceTable, Span};
use std::alloc::{AllocError, Global};

/// How many starts a split cuts off, and where it is.
#[derive(Clone, Copy)]
pub(crate) struct Cut {
    count: usize,
    pub(crate) i: u32,
    pub(crate) last: u32,
}

/// How far the least load of each place is below its upper limit, and the greatest above its lower limit, and the
/// lesser of these two.
#[derive(Drop)]
pub(crate) struct Slacks {
    over: Vec<i128>,
    under: Vec<i128>,
    lesser: Vec<i128>,
}

/// The cut that takes off more, the first one where both take off the same.
pub(crate) fn longer(one: Option<Cut>, other: Option<Cut>) -> Option<Cut> {
    let (Some(a), Some(b)) = (one, other) else {
        return one.or(other);
    };
    if a.count < b.count { other } else { one }
}

/// The starts of an interval told from 0: the first one, and the one behind the last.
fn starts_of(span: Span) -> (usize, usize) {
    (span.from.saturating_sub(1) as usize, span.to as usize)
}

/// A cut of the `below` first or the `above` last starts of an interval, where there are any.
fn cut_of(i: u32, span: Span, below: usize, above: usize) -> Option<Cut> {
    let (from, past) = starts_of(span);
    let count = below.max(above);
    if count == 0 {
        return None;
    }
    let last = if above <= below {
        from.saturating_add(below)
    } else {
        past.saturating_sub(above)
    };
    Some(Cut {
        count,
        i,
        last: last.min(512) as u32,
    })
}

/// Whether a start isn't allowed or has at least this price.
fn is_dear(prices: &[Option<i128>], limit: i128, k: usize) -> bool {
    match price_at(prices, k) {
        Some(price) => limit <= price,
        None => true,
    }
}

/// The cut of starts of at least this price.
fn dear_cut(prices: &[Option<i128>], i: u32, span: Span, limit: i128) -> Option<Cut> {
    let (from, past) = starts_of(span);
    let mut below: usize = 0;
    for k in from..past {
        if !is_dear(prices, limit, k) {
            break;
        }
        below = below.saturating_add(1);
    }
    let mut above: usize = 0;
    for k in (from..past).rev() {
        if !is_dear(prices, limit, k) {
            break;
        }
        above = above.saturating_add(1);
    }
    cut_of(i, span, below, above)
}

/// The longest cut of starts at which the worth by a list rises by what is lacking.
pub(crate) fn price_cut(table: &PriceTable, spans: &[Span], lacking: i128) -> Option<Cut>
    requires few { length spans.now ≤ 1024 }
{
    let mut found = None;
    for i in 0..spans.len() {
        let span = spans[i];
        let (from, past) = starts_of(span);
        let prices = table.row(i as u32);
        if let Some(least) = least_price(prices, from, past) {
            let limit = least.saturating_add(lacking);
            found = longer(found, dear_cut(prices, i as u32, span, limit));
        }
    }
    found
}

/// Whether a start isn't allowed or has more than this load, with the other sign for a lower limit.
fn is_heavy(
    prices: &[Option<i128>],
    cells: &[PlaceCell],
    side: Side,
    limit: i128,
    k: usize,
) -> bool {
    if !is_allowed(prices, k) {
        return true;
    }
    let start = k.min(512) as u32 + 1;
    limit < signed(side, load_in(cells, start))
}

/// The same of the first or the last start of an interval, of which the load is told where it is allowed.
fn is_end_heavy(load: Option<i128>, side: Side, limit: i128) -> bool {
    match load {
        Some(load) => limit < signed(side, load),
        None => true,
    }
}

/// The cut of starts of more than this load.
fn heavy_cut(
    prices: &[Option<i128>],
    cells: &[PlaceCell],
    i: u32,
    span: Span,
    side: Side,
    limit: i128,
) -> Option<Cut> {
    let (from, past) = starts_of(span);
    let mut below: usize = 0;
    for k in from..past {
        if !is_heavy(prices, cells, side, limit, k) {
            break;
        }
        below = below.saturating_add(1);
    }
    let mut above: usize = 0;
    for k in (from..past).rev() {
        if !is_heavy(prices, cells, side, limit, k) {
            break;
        }
        above = above.saturating_add(1);
    }
    cut_of(i, span, below, above)
}

/// Sets the entry of a place, where there is one.
fn set_at(slacks: &mut [i128], place: usize, slack: i128) {
    if place < slacks.len() {
        slacks[place] = slack;
    }
}

impl Slacks {
    pub(crate) fn make(alloc: Global, inst: &Instance) -> Result<Slacks, AllocError> {
        Ok(Slacks {
            over: vec![in alloc; 0; places(inst)]?,
            under: vec![in alloc; 0; places(inst)]?,
            lesser: vec![in alloc; 0; places(inst)]?,
        })
    }

    /// Takes over the loads of resource `c`.
    fn follow_one(&mut self, inst: &Instance, boxes: &BoxLoads, c: u32)
        requires over { IsOver inst.now boxes.now }
        requires resource { c < length inst.now.resource_names }
    {
        for t in 1..inst.periods() + 1 {
            let place = place_of(inst, c, t);
            let over = inst
                .upper(c, t)
                .saturating_sub(boxes.least_load(inst, c, t));
            let under = boxes
                .greatest_load(inst, c, t)
                .saturating_sub(inst.lower(c, t));
            set_at(&mut self.over, place, over);
            set_at(&mut self.under, place, under);
            set_at(&mut self.lesser, place, over.min(under));
        }
    }

    /// Takes over the loads of a box.
    pub(crate) fn follow(&mut self, inst: &Instance, boxes: &BoxLoads)
        requires { IsOver inst.now boxes.now }
    {
        for c in 0..inst.resources() {
            self.follow_one(inst, boxes, c);
        }
    }

    /// The lesser slack of a place.
    fn lesser(&self, place: usize) -> i128 {
        load_at(self.lesser.as_slice(), place)
    }

    /// The slack of a place on a side.
    fn of(&self, place: usize, side: Side) -> i128 {
        match side {
            Side::Over => load_at(self.over.as_slice(), place),
            Side::Under => load_at(self.under.as_slice(), place),
        }
    }
}

/// The cut of starts at which an intervention breaks the limit of a side in one place.
fn side_cut(
    ranges: &LoadRanges,
    slacks: &Slacks,
    prices: &[Option<i128>],
    range: &LoadRange,
    i: u32,
    span: Span,
    side: Side,
) -> Option<Cut> {
    let slack = slacks.of(range.place, side);
    if range.width <= slack {
        return None;
    }
    let base = match side {
        Side::Over => range.least,
        Side::Under => signed(side, range.greatest),
    };
    let limit = base.saturating_add(slack);
    if !is_end_heavy(range.first, side, limit) && !is_end_heavy(range.last, side, limit) {
        return None;
    }
    heavy_cut(prices, ranges.loads_of(range), i, span, side, limit)
}

/// The longest cut of starts at which intervention `i` breaks a limit.
fn limit_cut(
    ranges: &LoadRanges,
    slacks: &Slacks,
    table: &PriceTable,
    i: u32,
    span: Span,
) -> Option<Cut> {
    let prices = table.row(i);
    let mut found = None;
    for range in ranges.of_intervention(i) {
        if range.width <= slacks.lesser(range.place) {
            continue;
        }
        let over = side_cut(ranges, slacks, prices, range, i, span, Side::Over);
        let under = side_cut(ranges, slacks, prices, range, i, span, Side::Under);
        found = longer(found, longer(over, under));
    }
    found
}

/// The longest cut of starts at which a band is left.
pub(crate) fn band_cut(
    ranges: &LoadRanges,
    slacks: &Slacks,
    table: &PriceTable,
    spans: &[Span],
) -> Option<Cut>
    requires few { length spans.now ≤ 1024 }
{
    let mut found = None;
    for i in 0..spans.len() {
        let span = spans[i];
        if span.from < span.to {
            found = longer(found, limit_cut(ranges, slacks, table, i as u32, span));
        }
    }
    found
}

/// Whether intervention `i` at start `s` meets another one in a season whatever the start of that is in an interval.
fn always_meets(inst: &Instance, season: u32, i: u32, s: u32, other: u32, span: Span) -> bool
    requires season { season < length inst.now.season_names }
    requires number { i < length inst.now.names }
    requires other { other < length inst.now.names }
{
    if !inst.allowed(i, s) {
        return true;
    }
    let window = run(inst, i, s);
    for r in span.from..span.to.saturating_add(1) {
        if inst.allowed(other, r) && !meets_at(inst, season, window, other, r) {
            return false;
        }
    }
    true
}

/// The cut of starts at which intervention `i` always meets another one.
fn meeting_cut(
    inst: &Instance,
    season: u32,
    i: u32,
    span: Span,
    other: u32,
    of_other: Span,
) -> Option<Cut>
    requires season { season < length inst.now.season_names }
    requires number { i < length inst.now.names }
    requires other { other < length inst.now.names }
{
    let mut below: usize = 0;
    for s in span.from..span.to {
        if !always_meets(inst, season, i, s, other, of_other) {
            break;
        }
        below = below.saturating_add(1);
    }
    let mut above: usize = 0;
    for s in (span.from..span.to).rev() {
        if !always_meets(inst, season, i, s.saturating_add(1), other, of_other) {
            break;
        }
        above = above.saturating_add(1);
    }
    cut_of(i, span, below, above)
}

/// The longest cut of starts at which an exclusion is broken.
pub(crate) fn exclusion_cut(inst: &Instance, spans: &[Span]) -> Option<Cut> {
    let mut found = None;
    for e in 0..inst.exclusions() {
        let exclusion = inst.exclusion(e);
        let (i, j) = (exclusion.first, exclusion.second);
        if let (Some(one), Some(other)) = (spans.get(i as usize), spans.get(j as usize)) {
            let (one, other) = (*one, *other);
            let first = meeting_cut(inst, exclusion.season, i, one, j, other);
            let second = meeting_cut(inst, exclusion.season, j, other, i, one);
            found = longer(found, longer(first, second));
        }
    }
    found
}
