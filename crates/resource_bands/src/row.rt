//! The loads of one resource: contracts see the list by period.
ghost use Rattle.std.specs.Prelude.{◌≡◌, ◌+◌, ◌-◌, ◌*◌, ◌^◌, ◌<◌, ◌≤◌, pos, ◌+ℤ◌, length, replicate, slice_index_or};
ghost use Rattle.std.specs.Prelude.{slice_set, unsigned_abs, IfOk};
ghost use Rattle.resource_bands.specs.Gaps.{gap_at, row_gap, IsRow};

use crate::limit::{above, below};
use fixed_num::Amount;
use instance_model::Instance;
use std::alloc::{AllocError, Global};
use std::marker::Model;

/// The loads of one resource, by period.
#[derive(Drop)]
pub(crate) struct Row {
    loads: Vec<Amount>,
}

impl Model for Row {
    ghost use Rattle.std.specs.Prelude.{ℤ, List};

    ghost Value = { List ℤ };

    ghost view = { λ r. r.loads.items };
}

/// How far a load of resource `c` in period `t` is outside its limits.
pub(crate) fn gap(inst: &Instance, c: u32, t: u32, load: Amount) -> Amount
    requires resource { c < length inst.now.resource_names }
    requires from { 1 ≤ t }
    requires to { t ≤ inst.now.periods }
    requires small { unsigned_abs load ≤ 1025 * 10 ^ 20 }
    ensures value { result ≡ gap_at inst.now c t load }
    ensures small { unsigned_abs result ≤ 10 ^ 24 }
{
    above(load, inst.upper(c, t)).plus(below(load, inst.lower(c, t)))
}

impl Row {
    /// The loads of a resource while nothing is on board. Takes memory.
    pub(crate) fn idle(alloc: Global, periods: u32) -> Result<Row, AllocError>
        ensures { IfOk result (λ row. row ≡ replicate periods (pos 0)) }
    {
        Ok(Row {
            loads: vec![in alloc; Amount::zero(); periods as usize]?,
        })
    }

    /// The load in period `t`.
    pub(crate) fn load(&self, t: u32) -> Amount
        requires from { 1 ≤ t }
        requires to { t ≤ length self.now }
        ensures { result ≡ slice_index_or self.now (t - 1) (pos 0) }
    {
        self.loads[t as usize - 1]
    }

    /// How far the loads are outside the limits of resource `c`.
    pub(crate) fn gap(&self, inst: &Instance, c: u32) -> Amount
        requires row { IsRow inst.now self.now }
        requires resource { c < length inst.now.resource_names }
        ensures value { result ≡ row_gap inst.now c self.now }
        ensures small { unsigned_abs result ≤ 10 ^ 28 }
    {
        inst.fits();
        let mut sum = Amount::zero();
        for u in 0..inst.periods() {
            sum = sum.plus(gap(inst, c, u + 1, self.load(u + 1)));
        }
        sum
    }

    fn set_load(&mut self, t: u32, load: Amount)
        requires from { 1 ≤ t }
        requires to { t ≤ length self.old }
        ensures { self.new ≡ slice_set self.old (t - 1) load }
    {
        self.loads[t as usize - 1] = load;
    }

    /// Adds to the load in period `t`; the answer is how much further it is then outside the limits of resource `c`.
    pub(crate) fn shift(&mut self, inst: &Instance, c: u32, t: u32, by: Amount) -> Amount
        requires each { length self.old ≡ inst.now.periods }
        requires small { unsigned_abs by ≤ 10 ^ 20 }
        requires old { unsigned_abs (slice_index_or self.old (t - 1) (pos 0)) ≤ 1024 * 10 ^ 20 }
        requires resource { c < length inst.now.resource_names }
        requires from { 1 ≤ t }
        requires to { t ≤ inst.now.periods }
        ensures load { self.new ≡ slice_set self.old (t - 1) (slice_index_or self.old (t - 1) (pos 0) +ℤ by) }
        ensures gap { row_gap inst.now c self.new ≡ row_gap inst.now c self.old +ℤ result }
        ensures small { unsigned_abs result ≤ 2 * 10 ^ 24 }
    {
        let old = self.load(t);
        let new = old.plus(by);
        self.set_load(t, new);
        gap(inst, c, t, new).minus(gap(inst, c, t, old))
    }
}
