//! The walk over the load cells of one intervention at the allowed starts of an interval.
ghost use Rattle.std.specs.Prelude.{◌≡◌, ℕ, ◌+◌, ◌*◌, ◌<◌, ◌≤◌, ◌^◌, length, IsTrue, AllPairs, slice_index_or};
ghost use Rattle.instance_model.specs.declared.parts.LoadCell.{LoadCell};
ghost use Rattle.instance_model.specs.Fitting.{CellBefore};
ghost use Rattle.instance_model.specs.Tables.{is_allowed, tmax};
ghost use Rattle.lagrange_bound.specs.Boxes.{starts_in};
ghost use Rattle.certificate_tree.specs.Loads.{load_by_start};
ghost use Rattle.branch_search.specs.node_state.KeptLoads.{place_of};
ghost use Rattle.branch_search.specs.node_state.Extents.{extent_at, AreExtentsOf, IsTaken};

use crate::node_state::extent::Extent;
use instance_model::{Instance, LoadCell};
use lagrange_bound::Span;

/// The place of resource `c` in period `t` in a list by resource, then period.
pub(crate) fn place_at(inst: &Instance, c: u32, t: u32) -> usize
    requires resource { c < length inst.now.resource_names }
    requires from { 1 ≤ t }
    requires to { t ≤ inst.now.periods }
    ensures value { result ≡ place_of inst.now c t }
    ensures within { result < length inst.now.resource_names * inst.now.periods }
{
    inst.fits();
    c as usize * inst.periods() as usize + (t as usize - 1)
}

/// How many of the cells have a start up to `s`: these come first.
fn cells_to(cells: &[LoadCell], s: u32) -> usize
    requires { AllPairs CellBefore cells.now }
    ensures within { result ≤ length cells.now }
    ensures before { (k : ℕ) (d : LoadCell) → k < result → (slice_index_or cells.now k d).start ≤ s }
    ensures behind { (k : ℕ) (d : LoadCell) → result ≤ k → k < length cells.now
        → s < (slice_index_or cells.now k d).start }
{
    cells.partition_point(|cell| cell.start <= s)
}

/// Takes in the loads of intervention `i` at start `s`, which comes after `count` others.
fn take_start(extents: &mut [Extent], inst: &Instance, i: u32, s: u32, count: u32)
    requires each { length extents.old ≡ length inst.now.resource_names * inst.now.periods }
    requires number { i < length inst.now.names }
    requires allowed { IsTrue (is_allowed inst.now i s) }
    requires few { count + 1 < 2 ^ 32 }
    ensures each { length extents.new ≡ length extents.old }
    ensures taken { (c t : ℕ) → c < length inst.now.resource_names → 1 ≤ t → t ≤ inst.now.periods
        → IsTaken count (load_by_start inst.now c t i s) (extent_at extents.old (place_of inst.now c t))
        (extent_at extents.new (place_of inst.now c t)) }
{
    let cells = inst.workloads(i);
    let from = cells_to(cells, s - 1);
    let past = cells_to(cells, s);
    for k in from..past {
        let cell = &cells[k];
        let place = place_at(inst, cell.resource, cell.period);
        let extent = &mut extents[place];
        extent.take(count, cell.load);
    }
}

/// The loads of intervention `i` over the allowed starts of an interval; the answer is how many these are.
pub(crate) fn take_span(extents: &mut [Extent], inst: &Instance, i: u32, span: Span) -> u32
    requires each { length extents.old ≡ length inst.now.resource_names * inst.now.periods }
    requires number { i < length inst.now.names }
    requires end { span.to ≤ tmax inst.now i }
    ensures count { result ≡ length (starts_in inst.now i span) }
    ensures extents { AreExtentsOf inst.now i (starts_in inst.now i span) extents.new }
{
    inst.fits();
    extents.fill(Extent::none());
    let mut count = 0;
    for s in span.from..span.to + 1 {
        if inst.allowed(i, s) {
            take_start(extents, inst, i, s, count);
            count += 1;
        }
    }
    count
}
