//! The improvement of a plan.
ghost use Rattle.std.specs.Prelude.{IfOk};
ghost use Rattle.fewest_changes.specs.Openings.{IsKeptOpening};
ghost use Rattle.plan_improvement.specs.Improving.{IsImprovement};

use crate::first::{First, first_of};
use crate::judging::Judged;
use crate::steps::bettered;
use fewest_changes::opening_of;
use instance_model::{Instance, Starts};
use local_search::Opening;
use quantile_index::Row;
use std::alloc::{AllocError, Global};

/// What an improvement comes to.
#[derive(Drop)]
pub enum Improvement {
    /// A plan that keeps every rule.
    Found(Judged),
    /// No such plan was found: the least violation that was met.
    Nothing { violation: i128 },
    /// The first intervention without an allowed start.
    Without { i: u32 },
}

/// Looks for a better plan than the one of these old starts, with so many thousand tries from this seed.
///
/// It begins at the old starts where they are allowed, and at least ones elsewhere. Where these break a rule, a breakout
/// from them looks for a plan that breaks none, and a descent where it finds none. From there annealing is tried, which
/// is taken where it keeps every rule and isn't worse, and a descent of at most 1,000 changes ends it. Without turns
/// there is none of these.
pub fn improve<R: Row>(
    alloc: Global,
    inst: &Instance,
    old: &[Option<u32>],
    turns: u32,
    seed: u64,
) -> Result<Improvement, AllocError>
    ensures { IfOk result (IsImprovement inst.now old.now turns) }
{
    match opening_of(alloc, inst, old)? {
        Opening::From(opening) => improve_from::<R>(alloc, inst, old, opening, turns, seed),
        Opening::Without { i } => Ok(Improvement::Without { i }),
    }
}

/// The same from this opening.
fn improve_from<R: Row>(
    alloc: Global,
    inst: &Instance,
    old: &[Option<u32>],
    opening: Starts,
    turns: u32,
    seed: u64,
) -> Result<Improvement, AllocError>
    requires { IsKeptOpening inst.now old.now opening }
    ensures { IfOk result (IsImprovement inst.now old.now turns) }
{
    let _old = old;
    match first_of::<R>(alloc, inst, opening, turns, seed)? {
        First::Kept(first) => {
            let better = bettered::<R>(alloc, inst, first, turns, seed)?;
            Ok(Improvement::Found(better))
        }
        First::Broken { violation } => Ok(Improvement::Nothing { violation }),
    }
}
