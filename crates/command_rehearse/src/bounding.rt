//! A certificate is searched for from the end of a descent, and checked.
ghost use Rattle.std.specs.Prelude.{◌≡◌, IfOk};
ghost use Rattle.plan_moves.specs.KeptPlans.{present};
ghost use Rattle.command_rehearse.specs.Rehearsed.{IsBounded};

use crate::rehearsal::TURNS;
use branch_search::{TreeEnd, given_end, search};
use certificate_check::{CertVerdict, check};
use instance_model::Instance;
use lagrange_bound::RiskGoal;
use local_search::{is_feasible, present_starts};
use plan_moves::Kept;
use quantile_index::Row;
use std::alloc::{AllocError, Global};

/// The answer of a search without a price list that is given the present plan, where that keeps the rules. Its
/// certificate was checked.
pub(crate) fn bound_from<R: Row>(
    alloc: Global,
    inst: &Instance,
    kept: &Kept<'_, R>,
) -> Result<TreeEnd, AllocError>
    requires { kept.now.instance ≡ inst.now }
    ensures { IfOk result (IsBounded inst.now (present kept.now.plans)) }
{
    kept.allowed();
    let end = present_starts(alloc, inst, kept)?;
    let given = given_end(inst, &end, is_feasible(inst, kept));
    let answer = search(alloc, &RiskGoal, inst, None, given, TURNS)?;
    let verdict = check(alloc, inst, &answer.cert)?;
    match verdict {
        CertVerdict::Valid => Ok(answer),
        CertVerdict::LeafFails { .. } => unreachable!(),
    }
}
