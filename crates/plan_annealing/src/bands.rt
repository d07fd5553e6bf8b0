//! Loads and their limits, and whether a change keeps them. Loads are whole counts: nothing is rounded here.

ghost use Rattle.std.specs.Prelude.{◌≡◌, ◌<◌, ◌≤◌, length};

use crate::change::Change;
use crate::run::{Run, Span};
use crate::works::{Cells, Works};
use instance_model::Instance;
use std::alloc::{AllocError, Global};

/// The load of a resource in a period, and its limits.
#[derive(Clone, Copy)]
struct Band {
    load: i128,
    lower: i128,
    upper: i128,
}

impl Band {
    /// Whether a load that is by so much higher is within the limits.
    #[inline]
    fn holds(&self, more: i128) -> bool {
        let load = self.load.wrapping_add(more);
        load <= self.upper && self.lower <= load
    }
}

/// The bands by period, then resource, and the workloads.
#[derive(Drop)]
pub(crate) struct Bands<'a> {
    resources: usize,
    bands: Vec<Band>,
    works: Works<'a>,
}

/// Puts the bands of period `t`, without a load, behind others.
fn push_period(bands: &mut Vec<Band>, inst: &Instance, t: u32) -> Result<(), AllocError>
    requires from { 1 ≤ t }
    requires to { t ≤ inst.now.periods }
{
    for c in 0..inst.resources() {
        bands.push(Band {
            load: 0,
            lower: inst.lower(c, t),
            upper: inst.upper(c, t),
        })?;
    }
    Ok(())
}

impl<'a> Bands<'a> {
    /// All bands, without loads.
    pub(crate) fn make(alloc: Global, inst: &'a Instance) -> Result<Bands<'a>, AllocError> {
        let mut bands = Vec::new(alloc);
        for t in 1..inst.periods() + 1 {
            push_period(&mut bands, inst, t)?;
        }
        Ok(Bands {
            resources: inst.resources() as usize,
            bands,
            works: Works::make(alloc, inst)?,
        })
    }

    /// Adds the workloads of a run.
    #[inline]
    pub(crate) fn add(&mut self, run: Run) {
        let cells = self.works.of(run);
        for k in 0..cells.count() {
            let (place, amount) = cells.at(k);
            if let Some(band) = self.bands.get_mut(place) {
                band.load = band.load.wrapping_add(amount);
            }
        }
    }

    /// Takes them off.
    #[inline]
    pub(crate) fn take(&mut self, run: Run) {
        let cells = self.works.of(run);
        for k in 0..cells.count() {
            let (place, amount) = cells.at(k);
            if let Some(band) = self.bands.get_mut(place) {
                band.load = band.load.wrapping_sub(amount);
            }
        }
    }

    /// Whether the load in a band is within its limits once it is by so much higher.
    #[inline]
    fn holds_at(&self, place: usize, more: i128) -> bool {
        match self.bands.get(place) {
            Some(band) => band.holds(more),
            None => true,
        }
    }

    /// Whether the loads that a run takes part in are within their limits.
    #[inline]
    fn holds(&self, run: Run) -> bool {
        let cells = self.works.of(run);
        for k in 0..cells.count() {
            if !self.holds_at(cells.at(k).0, 0) {
                return false;
            }
        }
        true
    }

    /// The place of the first band of period `t`.
    #[inline]
    fn first_place(&self, t: usize) -> usize {
        t.wrapping_sub(1).wrapping_mul(self.resources)
    }

    /// Whether the loads are within their limits once a run has come, in periods from `from` on that aren't in a span.
    #[inline]
    fn holds_with(&self, come: Run, from: usize, others: Span) -> bool {
        let cells = self.works.of(come);
        let from = self.first_place(from.max(1));
        let other = Span {
            from: self.first_place(others.from.max(1)),
            past: self.first_place(others.past.max(1)),
        };
        for k in 0..cells.count() {
            let (place, amount) = cells.at(k);
            if place >= from && !other.has(place) && !self.holds_at(place, amount) {
                return false;
            }
        }
        true
    }

    /// Whether they are once a run has gone.
    #[inline]
    fn holds_without(&self, gone: Cells) -> bool {
        for k in 0..gone.count() {
            let (place, amount) = gone.at(k);
            if !self.holds_at(place, amount.wrapping_neg()) {
                return false;
            }
        }
        true
    }

    /// Whether a move keeps the limits, in periods of the run that comes.
    fn come_holds(&self, come: Cells, gone: Cells) -> bool {
        let mut next = 0;
        for k in 0..come.count() {
            let (place, more) = come.at(k);
            next = first_from(gone, next, place);
            let less = work_at(gone, next, place);
            if !self.holds_at(place, more.wrapping_sub(less)) {
                return false;
            }
        }
        true
    }

    /// Whether it keeps them where a run goes and the other one has no workload.
    fn gone_holds(&self, come: Cells, gone: Cells) -> bool {
        let mut next = 0;
        for k in 0..gone.count() {
            let (place, less) = gone.at(k);
            next = first_from(come, next, place);
            let more = work_at(come, next, place);
            if !self.holds_at(place, more.wrapping_sub(less)) {
                return false;
            }
        }
        true
    }

    /// Whether a move keeps the limits.
    #[inline]
    pub(crate) fn keeps_move(&self, gone: Run, come: Run) -> bool {
        if !self.holds_with(come, 0, gone.span()) {
            return false;
        }
        let old = self.works.of(gone);
        if come.span().meets(gone.span()) {
            let new = self.works.of(come);
            self.come_holds(new, old) && self.gone_holds(new, old)
        } else {
            self.holds_without(old)
        }
    }

    /// Changes the loads.
    #[inline]
    pub(crate) fn make_change(&mut self, change: &Change) {
        self.take(change.gone);
        self.take(change.second_gone);
        self.add(change.come);
        self.add(change.second_come);
    }

    /// Changes them back.
    #[inline]
    pub(crate) fn undo_change(&mut self, change: &Change) {
        self.take(change.come);
        self.take(change.second_come);
        self.add(change.gone);
        self.add(change.second_gone);
    }

    /// Whether an exchange keeps the limits where the workload of one run that comes is all that changes.
    #[inline]
    pub(crate) fn may_exchange(&self, change: &Change) -> bool {
        self.holds_with(
            change.come,
            change.second_gone.past as usize,
            change.old_span(),
        ) && self.holds_with(
            change.second_come,
            change.gone.past as usize,
            change.new_span(),
        )
    }

    /// Whether it keeps them where one run comes alone, when those that go are gone.
    #[inline]
    fn may_come(&self, change: &Change) -> bool {
        self.holds_with(change.come, 0, change.second_come.span())
            && self.holds_with(change.second_come, 0, change.come.span())
    }

    /// Whether it keeps them where runs went, and where two came, when it is made.
    #[inline]
    fn holds_exchange(&self, change: &Change) -> bool {
        self.holds(change.gone)
            && self.holds(change.second_gone)
            && (!change.come.span().meets(change.second_come.span())
                || self.holds(change.come) && self.holds(change.second_come))
    }

    /// Makes an exchange, if it keeps the limits.
    pub(crate) fn try_exchange(&mut self, change: &Change) -> bool {
        self.take(change.gone);
        self.take(change.second_gone);
        if !self.may_come(change) {
            self.add(change.gone);
            self.add(change.second_gone);
            return false;
        }
        self.add(change.come);
        self.add(change.second_come);
        let kept = self.holds_exchange(change);
        if !kept {
            self.undo_change(change);
        }
        kept
    }
}

/// The first of some workloads, from number `next` on, whose band isn't before a place.
#[inline]
fn first_from(cells: Cells, next: usize, place: usize) -> usize {
    for k in next..cells.count() {
        if cells.at(k).0 >= place {
            return k;
        }
    }
    cells.count()
}

/// Workload number `k`, if that is of this band.
#[inline]
fn work_at(cells: Cells, k: usize, place: usize) -> i128 {
    let (own, amount) = cells.at(k);
    if own == place { amount } else { 0 }
}
