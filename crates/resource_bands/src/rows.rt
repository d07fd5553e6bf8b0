//! The loads of all resources, in lists by period.
ghost use Rattle.std.specs.Prelude.{◌≡◌, ◌^◌, ◌<◌, ◌≤◌, ◌+ℤ◌, length, pos, replicate, unsigned_abs, IfOk, IsTrue};
ghost use Rattle.instance_model.specs.Tables.{is_allowed};
ghost use Rattle.resource_bands.specs.Gaps.{rows_gap, AreRows, AreRowsChanged};

use crate::cells::cells_to;
use crate::change::Change;
use crate::row::Row;
use fixed_num::Amount;
use instance_model::Instance;
use std::alloc::{AllocError, Global};

/// The loads of all resources while nothing is on board. Takes memory.
pub(crate) fn idle_rows(alloc: Global, inst: &Instance) -> Result<Vec<Row>, AllocError>
    ensures { IfOk result
        (λ rows. rows.items ≡ replicate (length inst.now.resource_names) (replicate inst.now.periods (pos 0))) }
{
    let mut rows = Vec::new(alloc);
    for _c in 0..inst.resources() {
        rows.push(Row::idle(alloc, inst.periods())?)?;
    }
    Ok(rows)
}

/// How far all loads are outside their limits.
pub(crate) fn gap_of_rows(inst: &Instance, rows: &[Row]) -> Amount
    requires { AreRows inst.now rows.now }
    ensures { result ≡ rows_gap inst.now rows.now }
{
    inst.fits();
    let mut gap = Amount::zero();
    for c in 0..inst.resources() {
        gap = gap.plus(rows[c as usize].gap(inst, c));
    }
    gap
}

/// Adds the workloads of a run to the loads, or takes them off; the answer is how much
/// further they are then outside their limits. Visits the workloads of this start alone.
pub(crate) fn change_rows(
    rows: &mut [Row],
    inst: &Instance,
    i: u32,
    s: u32,
    change: Change,
) -> Amount
    requires rows { AreRows inst.now rows.old }
    requires number { i < length inst.now.names }
    requires allowed { IsTrue (is_allowed inst.now i s) }
    ensures changed { AreRowsChanged inst.now i s change rows.old rows.new }
    ensures gap { rows_gap inst.now rows.new ≡ rows_gap inst.now rows.old +ℤ result }
    ensures small { unsigned_abs result ≤ 10 ^ 33 }
{
    inst.fits();
    let cells = inst.workloads(i);
    let from = cells_to(cells, s - 1);
    let past = cells_to(cells, s);
    let mut further = Amount::zero();
    for k in from..past {
        let cell = &cells[k];
        let work = change.of(cell.load);
        let row = &mut rows[cell.resource as usize];
        further = further.plus(row.shift(inst, cell.resource, cell.period, work));
    }
    further
}
