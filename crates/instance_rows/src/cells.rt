//! The load cells of an intervention.

ghost use Rattle.std.specs.Prelude.{◌≡◌, ◌≢◌, ◌≤◌, ◌++◌, AllPairs, IfOk, OnOk, IsPermutation, length, map};
ghost use Rattle.std.specs.Prelude.{string_bytes};
ghost use Rattle.std.specs.List.Sorted.{IsSortedBy};
ghost use Rattle.instance_rows.specs.Cells.{all_kept, kept, precedes, runs_in};
ghost use Rattle.instance_rows.specs.RowTables as table;
ghost use Rattle.instance_rows.specs.Sound.{AreWorkloadsApart};
ghost use Rattle.instance_rows.specs.Views.{load_view, workload_view};

use crate::rows::{Load, Workload};
use instance_model::LoadCell;
use ordered_keys::TextSet;
use std::alloc::{AllocError, Global};

/// The load cells of an intervention: its workloads of known resources in the periods of allowed runs, by start, then
/// period, then resource. Takes as long as there are workloads, and their order.
pub fn load_cells(
    alloc: Global,
    periods: u32,
    durations: &[u32],
    resources: &TextSet,
    workloads: &[Workload],
) -> Result<Vec<LoadCell>, AllocError>
    requires periods { periods ≤ 512 }
    requires starts { length durations.now ≤ 512 }
    requires few { length resources.now.texts.keys ≤ 1024 }
    requires names { AllPairs (λ a b. a ≢ b) (map string_bytes resources.now.texts.keys) }
    requires apart { AreWorkloadsApart (map workload_view workloads.now) }
    ensures { IfOk result
        (λ v. v.items
        ≡ table.each_run periods durations.now (table.cells_at (map string_bytes resources.now.texts.keys)
        (map workload_view workloads.now))) }
{
    let mut cells = all_cells(alloc, periods, durations, resources, workloads)?;
    sort_cells(&mut cells);
    Ok(cells)
}

/// The load cells by the resources and in the order of the file.
fn all_cells(
    alloc: Global,
    periods: u32,
    durations: &[u32],
    resources: &TextSet,
    workloads: &[Workload],
) -> Result<Vec<LoadCell>, AllocError>
    requires periods { periods ≤ 512 }
    requires starts { length durations.now ≤ 512 }
    requires few { length resources.now.texts.keys ≤ 1024 }
    ensures { IfOk result
        (λ v. v.items
        ≡ all_kept periods durations.now (map string_bytes resources.now.texts.keys)
        (map workload_view workloads.now)) }
{
    let mut cells = Vec::new(alloc);
    for workload in workloads {
        if let Some(resource) = resources.index_of(workload.resource.as_str()) {
            add_cells(
                periods,
                durations,
                resource as u32,
                workload.loads.as_slice(),
                &mut cells,
            )?;
        }
    }
    Ok(cells)
}

/// Adds the load cells of a resource in the order of the file.
fn add_cells(
    periods: u32,
    durations: &[u32],
    resource: u32,
    loads: &[Load],
    cells: &mut Vec<LoadCell>,
) -> Result<(), AllocError>
    requires periods { periods ≤ 512 }
    requires starts { length durations.now ≤ 512 }
    ensures { OnOk result
        (cells.new.items ≡ cells.old.items ++ kept periods durations.now resource (map load_view loads.now)) }
{
    for load in loads {
        if is_running(periods, durations, load.start, load.period) {
            cells.push(LoadCell {
                start: load.start,
                period: load.period,
                resource,
                load: load.load,
            })?;
        }
    }
    Ok(())
}

/// Whether a start is allowed and its run has a period.
#[tactic(auto, using(std::proofs::lemmas::Bool::Decides::nat_tests), unfolding(instance_model::specs::Tables::allowed_of))]
fn is_running(periods: u32, durations: &[u32], start: u32, period: u32) -> bool
    requires periods { periods ≤ 512 }
    requires starts { length durations.now ≤ 512 }
    ensures { result ≡ runs_in periods durations.now start period }
{
    if start == 0 || start as usize > durations.len() {
        return false;
    }
    let end = start as u64 + durations[start as usize - 1] as u64;
    end <= periods as u64 + 1 && start <= period && (period as u64) < end
}

/// Puts load cells in order by start, then period, then resource.
fn sort_cells(cells: &mut Vec<LoadCell>)
    ensures permutation { IsPermutation cells.old.items cells.new.items }
    ensures sorted { IsSortedBy precedes cells.new.items }
{
    cells.sort_unstable_by_key(|cell| (cell.start, cell.period, cell.resource));
}
