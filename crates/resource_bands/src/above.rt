//! Loads after starts have changed, looked up where the new runs add to them.
ghost use Rattle.std.specs.Prelude.{◌≡◌, ◌*◌, ◌^◌, ◌<◌, ◌≤◌, ◌+ℤ◌, ◌-ℤ◌, ◌<ℤ◌, length, unsigned_abs, Some, IsTrue};
ghost use Rattle.instance_model.specs.Tables.{is_allowed};
ghost use Rattle.instance_model.specs.Plans.{load_at, load_sum};
ghost use Rattle.instance_model.specs.Keys.{band_gaps};
ghost use Rattle.resource_bands.specs.BoardLoads.{IsOver};
ghost use Rattle.resource_bands.specs.StartChanges.{CanChangeStart, board_after};

use crate::cells::cells_to;
use crate::loads::Loads;
use crate::row::gap;
use duration_calendar::{in_run, run};
use fixed_num::{Amount, Fixed};
use instance_model::Instance;

/// The start of intervention `i` is changed.
#[derive(Clone, Copy)]
pub struct StartChange {
    pub i: u32,
    pub from: u32,
    pub to: u32,
}

/// The workload of resource `c` in period `t` that intervention `i` adds at start `s`.
fn work_of(inst: &Instance, i: u32, s: u32, c: u32, t: u32) -> Amount
    requires number { i < length inst.now.names }
    requires allowed { IsTrue (is_allowed inst.now i s) }
    requires resource { c < length inst.now.resource_names }
    ensures value { result ≡ load_at inst.now c t i (Some s) }
    ensures small { unsigned_abs result < 10 ^ 20 }
{
    if in_run(run(inst, i, s), t) {
        Amount::of(inst.load(i, s, c, t).count())
    } else {
        Amount::zero()
    }
}

/// A load of resource `c` in period `t` after one start has changed.
fn load_moved(inst: &Instance, load: Amount, one: StartChange, c: u32, t: u32) -> Amount
    requires number { one.i < length inst.now.names }
    requires from { IsTrue (is_allowed inst.now one.i one.from) }
    requires to { IsTrue (is_allowed inst.now one.i one.to) }
    requires resource { c < length inst.now.resource_names }
    requires small { unsigned_abs load < 10 ^ 30 }
    ensures { result ≡ load +ℤ
        (load_at inst.now c t one.i (Some one.to) -ℤ load_at inst.now c t one.i (Some one.from)) }
{
    let new = work_of(inst, one.i, one.to, c, t);
    let old = work_of(inst, one.i, one.from, c, t);
    load.plus(new).minus(old)
}

/// The load of resource `c` in period `t` after two starts have changed, which may be the same.
fn load_after(
    loads: &Loads,
    inst: &Instance,
    first: StartChange,
    second: StartChange,
    c: u32,
    t: u32,
) -> Amount
    requires over { IsOver inst.now loads.now }
    requires first { CanChangeStart inst.now loads.now.board first }
    requires second { CanChangeStart inst.now loads.now.board second }
    requires resource { c < length inst.now.resource_names }
    requires from { 1 ≤ t }
    requires to { t ≤ inst.now.periods }
    ensures value { result ≡ load_sum inst.now (board_after first second loads.now.board) c t }
    ensures small { unsigned_abs result ≤ 1025 * 10 ^ 20 }
{
    inst.fits();
    let load = Amount::of(loads.load(c, t));
    if first.i == second.i {
        load_moved(inst, load, second, c, t)
    } else {
        load_moved(inst, load_moved(inst, load, first, c, t), second, c, t)
    }
}

/// Whether the load of resource `c` in period `t`, to which a new run adds `work`, is outside its limits by more than
/// `limit` after two starts have changed. Nothing is looked up where the present load leaves room for the run.
fn is_above_at(
    loads: &Loads,
    inst: &Instance,
    first: StartChange,
    second: StartChange,
    c: u32,
    t: u32,
    work: Fixed,
    limit: i128,
) -> bool
    requires over { IsOver inst.now loads.now }
    requires first { CanChangeStart inst.now loads.now.board first }
    requires second { CanChangeStart inst.now loads.now.board second }
    requires resource { c < length inst.now.resource_names }
    requires from { 1 ≤ t }
    requires to { t ≤ inst.now.periods }
    ensures { IsTrue result → limit <ℤ band_gaps inst.now (board_after first second loads.now.board) }
{
    if loads.load(c, t) + work.count() - inst.upper(c, t) <= limit {
        return false;
    }
    let after = load_after(loads, inst, first, second, c, t);
    gap(inst, c, t, after).number() > limit
}

/// Whether one of the loads to which the new run of `one` adds is outside its limits by more than `limit`, after two
/// starts have changed.
fn is_above_in_run(
    loads: &Loads,
    inst: &Instance,
    one: StartChange,
    first: StartChange,
    second: StartChange,
    limit: i128,
) -> bool
    requires over { IsOver inst.now loads.now }
    requires one { CanChangeStart inst.now loads.now.board one }
    requires first { CanChangeStart inst.now loads.now.board first }
    requires second { CanChangeStart inst.now loads.now.board second }
    ensures { IsTrue result → limit <ℤ band_gaps inst.now (board_after first second loads.now.board) }
{
    let cells = inst.workloads(one.i);
    let from = cells_to(cells, one.to - 1);
    let past = cells_to(cells, one.to);
    for k in from..past {
        let cell = &cells[k];
        if is_above_at(
            loads,
            inst,
            first,
            second,
            cell.resource,
            cell.period,
            cell.load,
            limit,
        ) {
            return true;
        }
    }
    false
}

impl Loads {
    /// Whether one of the loads to which new runs add is outside its limits by more than `limit` after two starts have
    /// changed, which may be the same: then all loads together are, too. Where the answer is no they may be as well.
    pub fn is_above_after(
        &self,
        inst: &Instance,
        first: StartChange,
        second: StartChange,
        limit: i128,
    ) -> bool
        requires over { IsOver inst.now self.now }
        requires first { CanChangeStart inst.now self.now.board first }
        requires second { CanChangeStart inst.now self.now.board second }
        ensures { IsTrue result → limit <ℤ band_gaps inst.now (board_after first second self.now.board) }
    {
        if first.i != second.i && is_above_in_run(self, inst, first, first, second, limit) {
            return true;
        }
        is_above_in_run(self, inst, second, first, second, limit)
    }
}
