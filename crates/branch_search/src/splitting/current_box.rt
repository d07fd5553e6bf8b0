//! The current box, with what is kept of it while it becomes another one.
ghost use Rattle.std.specs.Prelude.{◌≡◌, ℕ, ◌<◌, ◌≤◌, length, IfOk};
ghost use Rattle.instance_model.specs.Tables.{tmax};
ghost use Rattle.lagrange_bound.specs.Boxes.{span_of};
ghost use Rattle.branch_search.specs.CurrentBoxes.{IsCurrentBox};

use crate::node_state::{BoxLoads, ExclusionIndex};
use instance_model::Instance;
use lagrange_bound::Span;
use std::alloc::{AllocError, Global};

/// A box with its loads, and the exclusions that name each intervention.
#[derive(Drop)]
pub(crate) struct CurrentBox {
    pub(crate) boxes: BoxLoads,
    pub(crate) index: ExclusionIndex,
}

impl CurrentBox {
    /// A box, with its loads.
    pub(crate) fn make(
        alloc: Global,
        inst: &Instance,
        spans: &[Span],
    ) -> Result<CurrentBox, AllocError>
        requires each { length spans.now ≡ length inst.now.names }
        requires ends { (i : ℕ) → i < length inst.now.names → (span_of spans.now i).to ≤ tmax inst.now i }
        ensures current { IfOk result (IsCurrentBox inst.now) }
        ensures spans { IfOk result (λ current. current.boxes.spans ≡ spans.now) }
    {
        Ok(CurrentBox {
            boxes: BoxLoads::make(alloc, inst, spans)?,
            index: ExclusionIndex::make(alloc, inst)?,
        })
    }
}
