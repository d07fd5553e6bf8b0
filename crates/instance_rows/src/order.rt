//! Which lists of risks the allowed runs of an intervention take, in the order of the tables.

ghost use Rattle.std.specs.Prelude.{◌≡◌, ◌+◌, ◌-◌, ◌<◌, ◌≤◌, ◌++◌, Some, IfOk, OnOk, find, length, vec_len};
ghost use Rattle.instance_rows.specs.Answers.{Tells};
ghost use Rattle.instance_rows.specs.Grid.{IsGridOf, order_of, place_of, run_order, runs_order};
ghost use Rattle.instance_rows.specs.RowFaults.{is_list_at, list_fault, run_fault, runs_fault, used_durations};
ghost use Rattle.instance_rows.specs.Views.{work_view};

use crate::fault::{CrossFault, RowsFault};
use crate::grid::Grid;
use crate::rows::{FileRows, Work};
use instance_model::{RiskLists, is_allowed_in};
use std::alloc::Global;

/// The lists of risks of an intervention, and what they have to be.
#[derive(Clone, Copy)]
struct Asked<'a> {
    name: &'a str,
    /// How many numbers a list has, by period.
    counts: &'a [u32],
    lists: &'a RiskLists,
    grid: &'a Grid,
}

/// The numbers of the lists that the allowed runs of an intervention take, by start, then period. A fault: there is no
/// such list, or it hasn't as many numbers as the period has scenarios.
pub fn order(
    alloc: Global,
    rows: &FileRows,
    name: &str,
    work: &Work,
) -> Result<Vec<usize>, RowsFault>
    requires each { vec_len rows.now.scenarios ≡ rows.now.periods }
    requires few { rows.now.periods ≤ 512 }
    requires starts { work.now.tmax ≤ rows.now.periods }
    requires listed { work.now.tmax ≤ vec_len work.now.durations }
    ensures told { Tells (runs_fault rows.now.periods rows.now.scenarios.items name.now
        (used_durations (work_view work.now)) work.now.risks) result }
    ensures order { IfOk result (λ v. v.items ≡ order_of rows.now.periods (work_view work.now)) }
{
    let grid = Grid::of(alloc, &work.risks, work.tmax, rows.periods)?;
    let asked = Asked {
        name,
        counts: rows.scenarios.as_slice(),
        lists: &work.risks,
        grid: &grid,
    };
    Ok(order_runs(alloc, &asked, &work.durations[..work.tmax as usize])?)
}

/// The numbers of the lists that the allowed runs with these durations take.
fn order_runs(alloc: Global, asked: &Asked, durations: &[u32]) -> Result<Vec<usize>, RowsFault>
    requires known { IsGridOf asked.now.lists.now asked.now.grid.now }
    requires each { length asked.now.counts.now ≡ asked.now.grid.now.periods }
    requires starts { length durations.now ≡ asked.now.grid.now.starts }
    ensures told { Tells (runs_fault asked.now.grid.now.periods asked.now.counts.now asked.now.name.now durations.now
        asked.now.lists.now) result }
    ensures order { IfOk result
        (λ v. v.items ≡ runs_order asked.now.grid.now.periods durations.now asked.now.lists.now) }
{
    let mut order = Vec::new(alloc);
    for k in 0..durations.len() {
        if is_allowed_in(asked.grid.periods, durations, k as u32 + 1) {
            add_run(alloc, asked, k as u32 + 1, durations[k], &mut order)?;
        }
    }
    Ok(order)
}

/// Adds the numbers of the lists of the run at a start.
fn add_run(
    alloc: Global,
    asked: &Asked,
    start: u32,
    duration: u32,
    order: &mut Vec<usize>,
) -> Result<(), RowsFault>
    requires known { IsGridOf asked.now.lists.now asked.now.grid.now }
    requires each { length asked.now.counts.now ≡ asked.now.grid.now.periods }
    requires from { 1 ≤ start }
    requires to { start ≤ asked.now.grid.now.starts }
    requires ends { start + duration ≤ asked.now.grid.now.periods + 1 }
    ensures told { Tells (run_fault asked.now.counts.now asked.now.name.now asked.now.lists.now start duration) result }
    ensures order { OnOk result (order.new.items ≡ order.old.items ++ run_order asked.now.lists.now start duration) }
{
    for j in 0..duration {
        order.push(ask(alloc, asked, start, start + j)?)?;
    }
    Ok(())
}

/// The number of the list at a start in a period.
fn ask(alloc: Global, asked: &Asked, start: u32, period: u32) -> Result<usize, RowsFault>
    requires known { IsGridOf asked.now.lists.now asked.now.grid.now }
    requires each { length asked.now.counts.now ≡ asked.now.grid.now.periods }
    requires from { 1 ≤ start }
    requires to { start ≤ asked.now.grid.now.starts }
    requires first { 1 ≤ period }
    requires last { period ≤ asked.now.grid.now.periods }
    ensures told { Tells (list_fault asked.now.counts.now asked.now.name.now period start
        (find (is_list_at period start) asked.now.lists.now)) result }
    ensures place { IfOk result (λ k. place_of asked.now.lists.now start period ≡ Some k) }
{
    let Some(k) = asked.grid.find(start, period) else {
        return Err(RowsFault::Across(CrossFault::NoRisk {
            intervention: asked.name.to_string(alloc)?,
            period,
            start,
        }));
    };
    if asked.lists.list(k).numbers.len() != asked.counts[period as usize - 1] as usize {
        return Err(RowsFault::Across(CrossFault::ScenarioCount {
            intervention: asked.name.to_string(alloc)?,
            period,
            start,
        }));
    }
    Ok(k)
}
