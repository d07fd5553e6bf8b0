//! The tables of the interventions.

ghost use Rattle.std.specs.Prelude.{◌≡◌, ◌≢◌, ◌≤◌, ◌∷◌, [], ◌++◌, List, All, AllPairs, IfOk, OnOk, length, map};
ghost use Rattle.std.specs.Prelude.{string_bytes};
ghost use Rattle.instance_rows.specs.FileRows.{WorkRow};
ghost use Rattle.instance_rows.specs.Filled.{AreTablesOf, IsReady};
ghost use Rattle.instance_rows.specs.Grid.{order_of};
ghost use Rattle.instance_rows.specs.Views.{work_view};

use crate::cells::load_cells;
use crate::rows::Work;
use instance_model::{LoadCell, ReadRisks};
use ordered_keys::TextSet;
use std::alloc::{AllocError, Global};
use std::mem;

/// The tables of interventions.
#[derive(Drop)]
pub struct WorkTables {
    /// Durations by intervention, then start.
    pub delta: Vec<Vec<u32>>,
    /// By intervention, by start, then period, then resource.
    pub loads: Vec<Vec<LoadCell>>,
    /// By intervention.
    pub risks: Vec<ReadRisks>,
}

/// The tables of interventions, whose allowed runs take lists of risks in these orders. The lists are kept as they are.
pub fn work_tables(
    alloc: Global,
    periods: u32,
    resources: &TextSet,
    works: Vec<Work>,
    mut orders: Vec<Vec<usize>>,
) -> Result<WorkTables, AllocError>
    requires few { periods ≤ 512 }
    requires few_resources { length resources.now.texts.keys ≤ 1024 }
    requires names { AllPairs (λ a b. a ≢ b) (map string_bytes resources.now.texts.keys) }
    requires ready { All (λ w. IsReady periods w) (map work_view works.items) }
    requires orders { map (λ o. o.items) orders.items ≡ map (λ w. order_of periods (work_view w)) works.items }
    ensures { IfOk result
        (AreTablesOf periods (map string_bytes resources.now.texts.keys) (map work_view works.items)) }
{
    let mut tables = WorkTables {
        delta: Vec::with_capacity(alloc, works.len())?,
        loads: Vec::with_capacity(alloc, works.len())?,
        risks: Vec::with_capacity(alloc, works.len())?,
    };
    for work in works {
        let order = mem::replace(&mut orders[tables.delta.len()], Vec::new(alloc));
        add_work(alloc, periods, resources, work, order, &mut tables)?;
    }
    Ok(tables)
}

/// Adds the tables of an intervention.
fn add_work(
    alloc: Global,
    periods: u32,
    resources: &TextSet,
    work: Work,
    order: Vec<usize>,
    tables: &mut WorkTables,
) -> Result<(), AllocError>
    requires few { periods ≤ 512 }
    requires few_resources { length resources.now.texts.keys ≤ 1024 }
    requires names { AllPairs (λ a b. a ≢ b) (map string_bytes resources.now.texts.keys) }
    requires ready { IsReady periods (work_view work) }
    requires order { order.items ≡ order_of periods (work_view work) }
    ensures { (works : List WorkRow) → AreTablesOf periods (map string_bytes resources.now.texts.keys) works tables.old
        → OnOk result
        (AreTablesOf periods (map string_bytes resources.now.texts.keys) (works ++ work_view work ∷ []) tables.new) }
{
    let mut durations = work.durations;
    durations.truncate(work.tmax as usize);
    let cells = load_cells(
        alloc,
        periods,
        durations.as_slice(),
        resources,
        work.workloads.as_slice(),
    )?;
    tables.risks.push(ReadRisks {
        lists: work.risks,
        order,
    })?;
    tables.loads.push(cells)?;
    tables.delta.push(durations)?;
    Ok(())
}
