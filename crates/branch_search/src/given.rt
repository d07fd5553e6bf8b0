//! The plan that a search is given.
ghost use Rattle.std.specs.Prelude.{◌↔◌, map, Some, IsTrue, IfSome, option_map};
ghost use Rattle.instance_model.specs.Plans.{AreAllowedStarts};
ghost use Rattle.instance_model.specs.Rules.{IsFeasible};
ghost use Rattle.branch_search.specs.Best.{IsFeasiblePlan};
ghost use Rattle.branch_search.specs.Given.{IsGiven};

use instance_model::{Instance, Starts};

/// The end of a descent, where it keeps the rules: the plan that a search is given.
pub fn given_end<'a>(inst: &Instance, end: &'a Starts, feasible: bool) -> Option<&'a [u32]>
    requires allowed { AreAllowedStarts inst.now end.now }
    requires feasible { IsTrue feasible ↔ IsFeasible inst.now (map Some end.now) }
    ensures given { IsGiven inst.now end.now (option_map (λ starts. starts.now) result) }
    ensures plan { IfSome result (λ starts. IsFeasiblePlan inst.now starts.now) }
{
    inst.fits();
    if feasible { Some(end.as_slice()) } else { None }
}
