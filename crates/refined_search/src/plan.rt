//! The plan that a price list is raised for.
ghost use Rattle.std.specs.Prelude.{IfOk, IfSome, None, option_map};
ghost use Rattle.branch_search.specs.Best.{IsFeasiblePlan};
ghost use Rattle.refined_search.specs.Steps.{FindsPlan};

use instance_model::{Instance, Starts};
use local_search::{Opening, opening_of};
use std::alloc::{AllocError, Global};

/// The plan of the least allowed starts, where each intervention has one.
fn opening_plan(alloc: Global, inst: &Instance) -> Result<Option<Starts>, AllocError>
    ensures { IfOk result (FindsPlan inst.now None) }
{
    match opening_of(alloc, inst)? {
        Opening::From(starts) => Ok(Some(starts)),
        Opening::Without { .. } => Ok(None),
    }
}

/// The plan handed in, or else that of the least allowed starts, where each intervention has one.
pub(crate) fn ladder_plan(
    alloc: Global,
    inst: &Instance,
    incumbent: Option<&[u32]>,
) -> Result<Option<Starts>, AllocError>
    requires { IfSome incumbent (λ given. IsFeasiblePlan inst.now given.now) }
    ensures { IfOk result (FindsPlan inst.now (option_map (λ given. given.now) incumbent.entry)) }
{
    match incumbent {
        Some(plan) => {
            let copy = Vec::from_slice(alloc, plan)?;
            Ok(Some(Starts::from_vec(copy)))
        }
        None => {
            let found = opening_plan(alloc, inst)?;
            Ok(found)
        }
    }
}
