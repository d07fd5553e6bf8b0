//! All that is kept beside any list, computed whole.
ghost use Rattle.std.specs.Prelude.{◌≡◌, ◌*◌, ◌^◌, IfOk};
ghost use Rattle.instance_model.specs.Plans.{AreAllowedStarts};
ghost use Rattle.lagrange_bound.specs.Prices.{IsPriceList};
ghost use Rattle.lagrange_bound.specs.Worth.{fixed_part};
ghost use Rattle.price_ladder.specs.Kept.{AreValues, AreSmall};
ghost use Rattle.price_ladder.specs.Weights.{price_at};
ghost use Rattle.price_ladder.specs.Beside.{IsWhole};

use crate::choice::{entry_sum, least_starts};
use crate::entries::{all_bases, all_prices};
use crate::kept::{Kept, settle};
use crate::root::root_worth;
use instance_model::Instance;
use lagrange_bound::Prices;
use std::alloc::{AllocError, Global};

/// What the prices add whatever the starts are: what the worth is above the sum of the least prices.
fn fixed_of(
    alloc: Global,
    inst: &Instance,
    prices: &Prices,
    entries: &[i128],
    starts: &[u32],
) -> Result<i128, AllocError>
    requires prices { IsPriceList inst.now prices.now }
    requires values { AreValues inst.now (price_at inst.now prices.now) entries.now }
    requires small { AreSmall inst.now (3 * 10 ^ 33) entries.now }
    requires starts { AreAllowedStarts inst.now starts.now }
    ensures { IfOk result (λ fixed. fixed ≡ fixed_part inst.now prices.now) }
{
    let worth = root_worth(alloc, inst, prices)?;
    let choice = least_starts(alloc, inst, entries, starts)?;
    Ok(worth - entry_sum(inst, entries, choice.as_slice()))
}

/// A list with all that is kept beside it. The starts are where the search for those of least price begins.
pub(crate) fn whole(
    alloc: Global,
    inst: &Instance,
    prices: Prices,
    starts: &[u32],
) -> Result<Kept, AllocError>
    requires prices { IsPriceList inst.now prices }
    requires starts { AreAllowedStarts inst.now starts.now }
    ensures same { IfOk result (λ kept. kept.prices ≡ prices) }
    ensures kept { IfOk result (IsWhole inst.now) }
{
    inst.fits();
    let bases = all_bases(alloc, inst, &prices)?;
    let entries = all_prices(alloc, inst, &prices)?;
    let fixed = fixed_of(alloc, inst, &prices, entries.as_slice(), starts)?;
    let beside = settle(alloc, inst, entries, fixed, starts)?;
    Ok(Kept {
        prices,
        bases,
        beside,
    })
}
