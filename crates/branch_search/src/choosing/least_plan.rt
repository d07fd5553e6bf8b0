//! The plan of least prices in a box by a list, and its loads, kept while the box changes.
ghost use Rattle.std.specs.Prelude.{◌<◌, length};

use crate::choosing::place_loads::{place_of, places};
use crate::choosing::start_prices::cheapest;
use instance_model::{Instance, LoadCell};
use lagrange_bound::{PriceTable, Span};
use std::alloc::{AllocError, Global};

/// A start for each intervention, 0 for none so far, the intervals that they were taken from, and the loads by
/// resource, then period. Whether this plan was judged already is kept until a start changes.
#[derive(Drop)]
pub(crate) struct LeastPlan {
    pub(crate) starts: Vec<u32>,
    spans: Vec<Span>,
    loads: Vec<i128>,
    pub(crate) is_judged: bool,
}

/// The loads at one start.
fn cells_at(cells: &[LoadCell], s: u32) -> &[LoadCell] {
    let from = cells.partition_point(|cell| cell.start < s);
    let rest = &cells[from..];
    let count = rest.partition_point(|cell| cell.start <= s);
    &rest[..count]
}

/// Adds the loads of intervention `i` at start `s`, or takes them off.
fn change_loads(loads: &mut [i128], inst: &Instance, i: u32, s: u32, is_added: bool)
    requires { i < length inst.now.names }
{
    let cells = cells_at(inst.workloads(i), s);
    for cell in cells {
        let place = place_of(inst, cell.resource, cell.period);
        if place < loads.len() {
            let load = cell.load.count();
            loads[place] = if is_added {
                loads[place].saturating_add(load)
            } else {
                loads[place].saturating_sub(load)
            };
        }
    }
}

/// The first start of least price in an interval.
fn cheapest_start(prices: &[Option<i128>], span: Span) -> Option<u32> {
    let from = span.from.saturating_sub(1) as usize;
    let k = cheapest(prices, from, span.to as usize)?;
    Some(k as u32 + 1)
}

impl LeastPlan {
    /// No start so far.
    pub(crate) fn make(alloc: Global, inst: &Instance) -> Result<LeastPlan, AllocError> {
        let none = Span { from: 1, to: 0 };
        Ok(LeastPlan {
            starts: vec![in alloc; 0; inst.interventions() as usize]?,
            spans: vec![in alloc; none; inst.interventions() as usize]?,
            loads: vec![in alloc; 0; places(inst)]?,
            is_judged: false,
        })
    }

    /// The start of intervention `i`, 0 for none.
    pub(crate) fn start(&self, i: u32) -> u32 {
        match self.starts.get(i as usize) {
            Some(start) => *start,
            None => 0,
        }
    }

    /// Changes the start of intervention `i`, where it is another.
    fn set_start(&mut self, inst: &Instance, i: u32, s: u32)
        requires { i < length inst.now.names }
    {
        let was = self.start(i);
        if was == s || i as usize >= self.starts.len() {
            return;
        }
        change_loads(&mut self.loads, inst, i, was, false);
        change_loads(&mut self.loads, inst, i, s, true);
        self.starts[i as usize] = s;
        self.is_judged = false;
    }

    /// Takes over the interval of intervention `i`, where it is another.
    fn follow_one(&mut self, inst: &Instance, table: &PriceTable, i: u32, span: Span)
        requires { i < length inst.now.names }
    {
        let k = i as usize;
        if k >= self.spans.len() || self.spans[k] == span {
            return;
        }
        self.spans[k] = span;
        if let Some(s) = cheapest_start(table.row(i), span) {
            self.set_start(inst, i, s);
        }
    }

    /// Forgets the intervals, so that the next box may be followed by another table.
    pub(crate) fn forget(&mut self) {
        self.spans.fill(Span { from: 1, to: 0 });
    }

    /// Takes over the least prices of a box. The table is the same at each call since the intervals were forgotten.
    pub(crate) fn follow(&mut self, inst: &Instance, table: &PriceTable, spans: &[Span]) {
        for i in 0..inst.interventions() {
            if let Some(span) = spans.get(i as usize) {
                self.follow_one(inst, table, i, *span);
            }
        }
    }

    /// The load of a place.
    pub(crate) fn load(&self, place: usize) -> i128 {
        match self.loads.get(place) {
            Some(load) => *load,
            None => 0,
        }
    }
}
