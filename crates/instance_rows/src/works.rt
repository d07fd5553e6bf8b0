//! The faults of interventions, and the order of their lists of risks.

ghost use Rattle.std.specs.Prelude.{◌≡◌, IfOk, map, vec_len};
ghost use Rattle.instance_rows.specs.Answers.{Tells};
ghost use Rattle.instance_rows.specs.Grid.{order_of};
ghost use Rattle.instance_rows.specs.RowFaults.{work_fault, works_fault};
ghost use Rattle.instance_rows.specs.Sound.{AreSound};
ghost use Rattle.instance_rows.specs.Views.{rows_view, work_view};

use crate::checks::{check_starts, check_workloads};
use crate::fault::RowsFault;
use crate::order::order;
use crate::rows::{FileRows, Work};
use std::alloc::Global;

/// For each intervention the numbers of the lists of risks that its allowed runs take.
pub fn orders(alloc: Global, rows: &FileRows) -> Result<Vec<Vec<usize>>, RowsFault>
    requires sound { AreSound (rows_view rows.now) }
    requires each { vec_len rows.now.scenarios ≡ rows.now.periods }
    ensures told { Tells (works_fault (rows_view rows.now)) result }
    ensures orders { IfOk result
        (λ v. map (λ o. o.items) v.items ≡ map (λ w. order_of rows.now.periods (work_view w)) rows.now.works.items) }
{
    let names = rows.interventions.as_slice();
    let mut orders = Vec::new(alloc);
    for i in 0..rows.works.len() {
        orders.push(work_order(alloc, rows, names[i].as_str(), &rows.works[i])?)?;
    }
    Ok(orders)
}

/// The numbers of the lists of risks that the allowed runs of an intervention take.
fn work_order(
    alloc: Global,
    rows: &FileRows,
    name: &str,
    work: &Work,
) -> Result<Vec<usize>, RowsFault>
    requires sound { AreSound (rows_view rows.now) }
    requires each { vec_len rows.now.scenarios ≡ rows.now.periods }
    ensures told { Tells (work_fault (rows_view rows.now) name.now (work_view work.now)) result }
    ensures order { IfOk result (λ v. v.items ≡ order_of rows.now.periods (work_view work.now)) }
{
    check_starts(alloc, rows.periods, name, work)?;
    check_workloads(alloc, &rows.resources, work.workloads.as_slice())?;
    Ok(order(alloc, rows, name, work)?)
}
