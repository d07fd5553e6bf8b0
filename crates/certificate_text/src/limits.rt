//! The prices on limits.
ghost use Rattle.std.specs.Prelude.{◌≡◌};
ghost use Rattle.lagrange_bound.specs.Prices.{IsPriceList};
ghost use Rattle.lagrange_bound.specs.Changes.{IsBandPlace};
ghost use Rattle.certificate_text.specs.Steps.{limit_of};

use certificate_tree::Side;
use instance_model::Instance;
use lagrange_bound::Prices;

/// The one on the upper or on the lower limit of a resource in a period.
pub(crate) fn limit_price(inst: &Instance, prices: &Prices, side: Side, c: u32, t: u32) -> u32
    requires in_range { IsPriceList inst.now prices.now }
    requires place { IsBandPlace inst.now c t }
    ensures { result ≡ limit_of inst.now side prices.now c t }
{
    match side {
        Side::Over => prices.up(inst, c, t),
        Side::Under => prices.lo(inst, c, t),
    }
}
