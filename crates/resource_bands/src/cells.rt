//! The workloads of one start among those of an intervention.
ghost use Rattle.std.specs.Prelude.{ℕ, ◌<◌, ◌≤◌, length, slice_index_or, AllPairs};
ghost use Rattle.instance_model.specs.declared.parts.LoadCell.{LoadCell};
ghost use Rattle.instance_model.specs.Fitting.{CellBefore};

use instance_model::LoadCell;

/// How many of the cells have a start up to `s`: these come first.
pub(crate) fn cells_to(cells: &[LoadCell], s: u32) -> usize
    requires { AllPairs CellBefore cells.now }
    ensures within { result ≤ length cells.now }
    ensures before { (k : ℕ) (d : LoadCell) → k < result → (slice_index_or cells.now k d).start ≤ s }
    ensures behind { (k : ℕ) (d : LoadCell) → result ≤ k → k < length cells.now
        → s < (slice_index_or cells.now k d).start }
{
    cells.partition_point(|cell| cell.start <= s)
}
