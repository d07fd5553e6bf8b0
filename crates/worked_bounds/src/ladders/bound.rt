//! The bound that a raised list gives.
ghost use Rattle.std.specs.Prelude.{◌≡◌, ◌≤ℤ◌, IfOk};
ghost use Rattle.instance_model.specs.Plans.{AreAllowedStarts};
ghost use Rattle.lagrange_bound.specs.Prices.{IsPriceList};
ghost use Rattle.price_ladder.specs.Raised.{root_worth, least_total};
ghost use Rattle.worked_bounds.specs.Bounding.{BoundsScores, IsRaisedWorth};

use certificate_tree::BoxPath;
use instance_model::Instance;
use lagrange_bound::{Prices, RiskGoal, tabulate, worth, worth_bounds_plans};
use price_ladder::raise_plainly;
use std::alloc::{AllocError, Global};

/// The worth of the box of all starts, of which these are allowed ones.
pub fn root_worth(
    alloc: Global,
    inst: &Instance,
    prices: &Prices,
    starts: &[u32],
) -> Result<i128, AllocError>
    requires prices { IsPriceList inst.now prices.now }
    requires starts { AreAllowedStarts inst.now starts.now }
    ensures { IfOk result (λ w. w ≡ root_worth inst.now prices.now) }
{
    inst.fits();
    let root = BoxPath::root(alloc, inst)?;
    let table = tabulate(alloc, &RiskGoal, inst, prices)?;
    Ok(worth(&table, root.spans()))
}

/// A bound on the scores of all plans: the worth of the box of all starts by the list that is raised for a plan of
/// these starts. `are_allowed` of `small_instances` tests starts.
pub fn raised_bound(alloc: Global, inst: &Instance, starts: &[u32]) -> Result<i128, AllocError>
    requires { AreAllowedStarts inst.now starts.now }
    ensures raised { IfOk result (IsRaisedWorth inst.now starts.now) }
    ensures proved { IfOk result (BoundsScores inst.now) }
    ensures not_below_zeros { IfOk result (λ bound. least_total inst.now ≤ℤ bound) }
{
    inst.fits();
    worth_bounds_plans(&RiskGoal);
    let prices = raise_plainly(alloc, inst, starts)?;
    root_worth(alloc, inst, &prices, starts)
}
