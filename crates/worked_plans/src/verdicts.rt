//! Verdicts as the rows have them, and plans compared with them.

ghost use Rattle.std.specs.Prelude.{IsTrue};
ghost use Rattle.small_instances.specs.Sketches.{is_fitting};

use crate::keeps_rules;
use instance_model::{Instance, Rule};
use plan_score::{Values, Verdict, judge};
use small_instances::{Sketch, instance};
use std::alloc::{AllocError, Global};
use std::process::Abort;

/// The verdict on a plan, and whether it keeps the rules; none where the plan isn't one of this instance.
fn judged(
    alloc: Global,
    inst: &Instance,
    plan: &[Option<u32>],
) -> Result<Option<(Verdict, bool)>, AllocError> {
    if plan.len() != inst.interventions() as usize {
        return Ok(None);
    }
    Ok(Some((judge(alloc, inst, plan)?, keeps_rules(alloc, inst, plan)?)))
}

/// The plan has this verdict, and `keeps_rules` agrees.
fn agrees(rt: &impl Abort, alloc: Global, inst: &Instance, plan: &[Option<u32>], verdict: Verdict) {
    let kept = matches!(verdict, Verdict::Feasible(_));
    assert_eq!(rt;
        judged(alloc, inst, plan),
        Ok(Some((verdict, kept))),
        "{plan:?}"
    );
}

/// Each plan of the sketch's instance has the verdict beside it.
pub(crate) fn judges<const N: usize>(
    rt: &impl Abort,
    alloc: Global,
    sketch: &Sketch,
    rows: &[([Option<u32>; N], Verdict)],
) -> Result<(), AllocError>
    requires { IsTrue (is_fitting sketch.now) }
{
    let inst = instance(alloc, sketch)?;
    for (plan, verdict) in rows {
        agrees(rt, alloc, &inst, plan, *verdict);
    }
    Ok(())
}

pub(crate) fn over(c: u32, t: u32, load: i64, limit: i64) -> Verdict {
    Verdict::Broken(Rule::Over {
        c,
        t,
        load: load as i128,
        limit: limit as i128,
    })
}

pub(crate) fn under(c: u32, t: u32, load: i64, limit: i64) -> Verdict {
    Verdict::Broken(Rule::Under {
        c,
        t,
        load: load as i128,
        limit: limit as i128,
    })
}

pub(crate) fn clash(e: u32, t: u32) -> Verdict {
    Verdict::Broken(Rule::Clash { e, t })
}

/// Score and roof, then the printed cost, mean and excess.
pub(crate) fn feasible(
    sums: (i128, i128),
    cost: (i128, i128),
    mean: (i128, i128),
    excess: (i128, i128),
) -> Verdict {
    Verdict::Feasible(Values {
        score: sums.0,
        roof: sums.1,
        cost_low: cost.0,
        cost_high: cost.1,
        mean_low: mean.0,
        mean_high: mean.1,
        excess_low: excess.0,
        excess_high: excess.1,
    })
}

/// A plan without risk.
pub(crate) fn free() -> Verdict {
    feasible((0, 0), (0, 0), (0, 0), (0, 0))
}

/// The values where both interventions of PAIR, or one in each period, start as early as they may.
pub(crate) fn plain() -> Verdict {
    feasible(
        (2_000_000_000_000_000_000, 2_000_000_000_000_000_000),
        (1_000_000_000_000, 1_000_000_000_000),
        (2_000_000_000_000, 2_000_000_000_000),
        (0, 0),
    )
}
