//! Plans judged from scratch.

use crate::annealing::draft::{Draft, instance_text};
use crate::annealing::shapes::Shape;
use fixed_num::Fixed;
use instance_model::{Instance, Limits, plan_of};
use instance_read::{InstanceFault, read_instance};
use plan_score::{Verdict, judge};
use std::alloc::{AllocError, Global};
use std::test::Fail;

/// How many plans are drawn at most, to find one that keeps every rule.
const MOST_PLANS: u32 = 500;

/// The instance of a text.
fn read(alloc: Global, text: &str) -> Result<Instance, InstanceFault> {
    let limits = Limits::standard();
    read_instance(alloc, &limits, Fixed::zero(), text.as_bytes())
}

/// The instance that a number draws.
pub(crate) fn drawn(alloc: Global, shape: Shape, seed: u64) -> Result<Instance, Fail> {
    let text = instance_text(alloc, shape, seed)?;
    Ok(read(alloc, text.as_str())?)
}

/// The score of a plan that keeps every rule.
pub(crate) fn score_of(
    alloc: Global,
    inst: &Instance,
    starts: &[u32],
) -> Result<Option<i128>, AllocError> {
    let plan = plan_of(alloc, starts)?;
    if plan.len() != inst.interventions() as usize {
        return Ok(None);
    }
    match judge(alloc, inst, plan.as_slice())? {
        Verdict::Feasible(values) => Ok(Some(values.score)),
        Verdict::Broken(_) => Ok(None),
    }
}

/// A drawn plan that keeps every rule, if one is met.
pub(crate) fn first_plan(
    alloc: Global,
    inst: &Instance,
    draft: &mut Draft,
) -> Result<Option<Vec<u32>>, AllocError> {
    for _ in 0..MOST_PLANS {
        let starts = draft.counts(alloc, inst.interventions(), 1, inst.periods())?;
        if score_of(alloc, inst, starts.as_slice())?.is_some() {
            return Ok(Some(starts));
        }
    }
    Ok(None)
}
