//! Where a descent sets out.
ghost use Rattle.std.specs.Prelude.{IfOk};
ghost use Rattle.local_search.specs.Openings.{OpensAs};

use duration_calendar::first_allowed;
use instance_model::{Instance, Starts};
use std::alloc::{AllocError, Global};

/// The plan from which a descent sets out, or why there is none.
#[derive(Drop)]
pub enum Opening {
    /// An allowed start of each intervention.
    From(Starts),
    /// The first intervention without an allowed start.
    Without { i: u32 },
}

/// The plan of the least allowed starts.
pub fn opening_of(alloc: Global, inst: &Instance) -> Result<Opening, AllocError>
    ensures { IfOk result (OpensAs inst.now) }
{
    inst.fits();
    let mut starts = Vec::new(alloc);
    for i in 0..inst.interventions() {
        match first_allowed(inst, i, 1, inst.tmax(i)) {
            Some(start) => starts.push(start)?,
            None => return Ok(Opening::Without { i }),
        }
    }
    Ok(Opening::From(Starts::from_vec(starts)))
}
