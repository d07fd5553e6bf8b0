//! A ladder is climbed: steps are taken as long as one gains enough.
ghost use Rattle.std.specs.Prelude.{◌≤◌, ◌+◌, ◌≤ℤ◌, length, OnOk};
ghost use Rattle.instance_model.specs.Plans.{AreAllowedStarts};
ghost use Rattle.lagrange_bound.specs.Prices.{IsPriceList};
ghost use Rattle.lagrange_bound.specs.Worth.{price_total};
ghost use Rattle.price_ladder.specs.Raised.{root_worth, least_total, IsRaised};

use crate::ladder::Ladder;
use crate::least_gain::least_gain;
use crate::scan::try_all;
use instance_model::Instance;
use std::alloc::{AllocError, Global};

/// How many steps lead to a worth that is good enough.
const STEPS: u32 = 400;

/// Takes the first step in a fixed order that gains enough, until there is none, or the worth is good enough. The list
/// may be any whose worth isn't below that of zeros.
pub(crate) fn climb<L: Ladder>(
    alloc: Global,
    inst: &Instance,
    starts: &[u32],
    ladder: &mut L,
) -> Result<(), AllocError>
    requires prices { IsPriceList inst.now (L.list ladder.old) }
    requires kept { L.is_kept inst.now ladder.old }
    requires starts { AreAllowedStarts inst.now starts.now }
    requires above { least_total inst.now ≤ℤ root_worth inst.now (L.list ladder.old) }
    ensures in_range { OnOk result (IsPriceList inst.now (L.list ladder.new)) }
    ensures raised { OnOk result (IsRaised inst.now starts.now (L.list ladder.new)) }
    ensures not_below_zeros { OnOk result (least_total inst.now ≤ℤ root_worth inst.now (L.list ladder.new)) }
    ensures total { OnOk result (price_total (L.list ladder.new) ≤ price_total (L.list ladder.old) + 40_000_000_000) }
    ensures exclusions { OnOk result (length (L.list ladder.new).ex ≤ length (L.list ladder.old).ex + 400) }
{
    let gain = least_gain(alloc, inst, starts)?;
    let mut worth = ladder.worth(alloc, inst)?;
    for _step in 0..STEPS {
        if !try_all(alloc, inst, starts, ladder, worth + gain)? {
            return Ok(());
        }
        worth = ladder.worth(alloc, inst)?;
    }
    Ok(())
}
