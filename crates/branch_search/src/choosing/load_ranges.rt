//! The places that each intervention loads, and its least and greatest load there in its interval.
ghost use Rattle.std.specs.Prelude.{◌<◌, ◌≤◌, length};

use crate::choosing::place_loads::{PlaceCell, load_in, loads_of_all};
use crate::choosing::start_prices::is_allowed;
use instance_model::Instance;
use lagrange_bound::{PriceTable, Span};
use std::alloc::{AllocError, Global};

/// The loads of an intervention in one place: where they stand among all, the least and the greatest one at the
/// allowed starts of an interval, how far these are apart, and that at its first and at its last start, where that is
/// allowed.
#[derive(Clone, Copy)]
pub(crate) struct LoadRange {
    pub(crate) i: u32,
    pub(crate) place: usize,
    from: usize,
    past: usize,
    pub(crate) least: i128,
    pub(crate) greatest: i128,
    pub(crate) width: i128,
    pub(crate) first: Option<i128>,
    pub(crate) last: Option<i128>,
}

/// The place of a range of loads, and its number.
#[derive(Clone, Copy)]
pub(crate) struct Numbered {
    place: usize,
    pub(crate) number: usize,
}

/// The ranges of loads of all interventions, by intervention, then place, their numbers by place, then intervention,
/// and the intervals that they were taken over.
#[derive(Drop)]
pub(crate) struct LoadRanges {
    cells: Vec<PlaceCell>,
    ranges: Vec<LoadRange>,
    by_place: Vec<Numbered>,
    spans: Vec<Span>,
}

/// Whether a load is one of the same intervention and place.
fn is_of(range: &LoadRange, cell: &PlaceCell) -> bool {
    range.i == cell.i && range.place == cell.place
}

/// Takes in the load with number `k`, behind those before it.
fn take_cell(ranges: &mut Vec<LoadRange>, cell: &PlaceCell, k: usize) -> Result<(), AllocError> {
    if let Some(last) = ranges.as_mut_slice().last_mut() {
        if is_of(last, cell) {
            last.past = k.saturating_add(1);
            return Ok(());
        }
    }
    ranges.push(LoadRange {
        i: cell.i,
        place: cell.place,
        from: k,
        past: k.saturating_add(1),
        least: 0,
        greatest: 0,
        width: 0,
        first: None,
        last: None,
    })?;
    Ok(())
}

/// The numbers of ranges, by place, then intervention.
fn numbers_by_place(alloc: Global, ranges: &[LoadRange]) -> Result<Vec<Numbered>, AllocError> {
    let mut numbers = Vec::new(alloc);
    for number in 0..ranges.len() {
        numbers.push(Numbered {
            place: ranges[number].place,
            number,
        })?;
    }
    numbers.sort_unstable_by_key(|one| (one.place, one.number));
    Ok(numbers)
}

/// How many starts of an interval are allowed.
fn count_allowed(prices: &[Option<i128>], span: Span) -> usize {
    let mut count: usize = 0;
    for k in span.from.saturating_sub(1) as usize..span.to as usize {
        if is_allowed(prices, k) {
            count = count.saturating_add(1);
        }
    }
    count
}

/// The part of a list from a number up to another, nothing where there is no such part.
fn part_of<'a>(cells: &'a [PlaceCell], from: usize, past: usize) -> &'a [PlaceCell] {
    if from <= past && past <= cells.len() {
        &cells[from..past]
    } else {
        &[]
    }
}

/// The load at a start, where that is allowed.
fn allowed_load(cells: &[PlaceCell], prices: &[Option<i128>], start: u32) -> Option<i128> {
    if is_allowed(prices, start.saturating_sub(1) as usize) {
        Some(load_in(cells, start))
    } else {
        None
    }
}

impl LoadRange {
    /// Takes in a load, which comes after `count` others.
    fn take(&mut self, load: i128, count: usize) {
        if count == 0 {
            self.least = load;
            self.greatest = load;
        } else {
            self.least = self.least.min(load);
            self.greatest = self.greatest.max(load);
        }
    }

    /// Takes the loads of an interval of so many allowed starts.
    fn take_all(
        &mut self,
        cells: &[PlaceCell],
        prices: &[Option<i128>],
        span: Span,
        starts: usize,
    ) {
        let mut count: usize = 0;
        for cell in cells {
            let s = cell.start;
            if span.from <= s && s <= span.to && is_allowed(prices, s.saturating_sub(1) as usize) {
                self.take(cell.load.count(), count);
                count = count.saturating_add(1);
            }
        }
        if count < starts {
            self.take(0, count);
        }
        self.width = self.greatest.saturating_sub(self.least);
        self.first = allowed_load(cells, prices, span.from);
        self.last = allowed_load(cells, prices, span.to);
    }
}

impl LoadRanges {
    /// Over no interval so far.
    pub(crate) fn make(alloc: Global, inst: &Instance) -> Result<LoadRanges, AllocError> {
        let mut cells = loads_of_all(alloc, inst)?;
        cells.sort_unstable_by_key(|cell| (cell.i, cell.place, cell.start));
        let mut ranges = Vec::new(alloc);
        for k in 0..cells.len() {
            let cell = cells[k];
            take_cell(&mut ranges, &cell, k)?;
        }
        let by_place = numbers_by_place(alloc, ranges.as_slice())?;
        let none = Span { from: 1, to: 0 };
        Ok(LoadRanges {
            cells,
            ranges,
            by_place,
            spans: vec![in alloc; none; inst.interventions() as usize]?,
        })
    }

    /// How many pairs of an intervention and a place that it loads there are.
    pub(crate) fn len(&self) -> usize {
        self.ranges.len()
    }

    /// The numbers of the ranges of intervention `i`: the first one, and the one behind the last.
    pub(crate) fn numbers_of(&self, i: u32) -> (usize, usize)
        ensures { result.1 ≤ length self.now.ranges.items }
    {
        let from = self.ranges.partition_point(|range| range.i < i);
        let past = self.ranges.partition_point(|range| range.i <= i);
        (from, past)
    }

    /// The ranges of intervention `i`.
    pub(crate) fn of_intervention(&self, i: u32) -> &[LoadRange] {
        let (from, past) = self.numbers_of(i);
        if from <= past {
            &self.ranges[from..past]
        } else {
            &[]
        }
    }

    /// The numbers of the ranges in a place.
    pub(crate) fn of_place(&self, place: usize) -> &[Numbered] {
        let numbers = self.by_place.as_slice();
        let from = numbers.partition_point(|one| one.place < place);
        let rest = &numbers[from..];
        let count = rest.partition_point(|one| one.place <= place);
        &rest[..count]
    }

    /// The range that has this number.
    pub(crate) fn range(&self, number: usize) -> Option<&LoadRange> {
        self.ranges.get(number)
    }

    /// The loads of an intervention in one place.
    pub(crate) fn loads_of(&self, range: &LoadRange) -> &[PlaceCell] {
        part_of(self.cells.as_slice(), range.from, range.past)
    }

    /// Takes the loads of intervention `i` over another interval.
    fn retake(&mut self, prices: &[Option<i128>], i: u32, span: Span) {
        let starts = count_allowed(prices, span);
        let (from, past) = self.numbers_of(i);
        for k in from..past {
            if let Some(range) = self.ranges.as_mut_slice().get_mut(k) {
                let cells = part_of(self.cells.as_slice(), range.from, range.past);
                range.take_all(cells, prices, span, starts);
            }
        }
    }

    /// Takes over the interval of intervention `i`, where it is another.
    fn follow_one(&mut self, table: &PriceTable, i: u32, span: Span) {
        let k = i as usize;
        if k >= self.spans.len() || self.spans[k] == span {
            return;
        }
        self.spans[k] = span;
        self.retake(table.row(i), i, span);
    }

    /// Takes over the intervals of a box. The table says which starts are allowed.
    pub(crate) fn follow(&mut self, inst: &Instance, table: &PriceTable, spans: &[Span]) {
        for i in 0..inst.interventions() {
            if let Some(span) = spans.get(i as usize) {
                self.follow_one(table, i, *span);
            }
        }
    }
}
