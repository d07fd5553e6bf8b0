//! The worth of the box of all starts.
ghost use Rattle.std.specs.Prelude.{◌≡◌, ◌<◌, ◌^◌, IfOk, unsigned_abs};
ghost use Rattle.lagrange_bound.specs.Prices.{IsPriceList};
ghost use Rattle.lagrange_bound.specs.Boxes.{HasStarts};
ghost use Rattle.certificate_tree.specs.Trees.{root_box};
ghost use Rattle.price_ladder.specs.Raised.{root_worth};

use certificate_tree::BoxPath;
use instance_model::Instance;
use lagrange_bound::{Prices, RiskGoal, tabulate, worth};
use std::alloc::{AllocError, Global};

/// The worth of the box of all starts, computed whole.
pub(crate) fn root_worth(
    alloc: Global,
    inst: &Instance,
    prices: &Prices,
) -> Result<i128, AllocError>
    requires prices { IsPriceList inst.now prices.now }
    requires starts { HasStarts inst.now (root_box inst.now) }
    ensures value { IfOk result (λ w. w ≡ root_worth inst.now prices.now) }
    ensures small { IfOk result (λ w. unsigned_abs w < 10 ^ 37) }
{
    inst.fits();
    let table = tabulate(alloc, &RiskGoal, inst, prices)?;
    let root = BoxPath::root(alloc, inst)?;
    Ok(worth(&table, root.spans()))
}
