//! The starts of a plan, or why they are none to set out from.
ghost use Rattle.std.specs.Prelude.{◌≡◌, length, map, IfOk, unwrap_or};
ghost use Rattle.command_frame.specs.Openings.{OpensAs};

use crate::report::infeasible_text;
use crate::text::Text;
use instance_model::{Instance, Starts};
use plan_score::broken_start;
use plan_text::Plan;
use std::alloc::{AllocError, Global};

/// From what a command sets out that needs a plan of allowed starts.
#[derive(Drop)]
pub enum Opening {
    /// Starts, all of them allowed.
    Starts(Starts),
    /// The report on a plan that breaks a rule on starts.
    Broken(Text),
}

/// The starts of a plan, or the report on the first rule on starts that it breaks.
pub fn opening_of(alloc: Global, inst: &Instance, plan: &Plan) -> Result<Opening, AllocError>
    requires { length plan.now ≡ length inst.now.names }
    ensures { IfOk result (OpensAs inst.now plan.now) }
{
    match broken_start(inst, plan.as_slice()) {
        Some(rule) => Ok(Opening::Broken(infeasible_text(alloc, inst, &rule)?)),
        None => Ok(Opening::Starts(Starts::from_vec(starts_of(alloc, plan.as_slice())?))),
    }
}

/// The starts of a plan; 0 where there is none.
fn starts_of(alloc: Global, plan: &[Option<u32>]) -> Result<Vec<u32>, AllocError>
    ensures { IfOk result (λ starts. starts.items ≡ map (λ start. unwrap_or start 0) plan.now) }
{
    plan.iter().map(|start| start.unwrap_or(0)).collect(alloc)
}
