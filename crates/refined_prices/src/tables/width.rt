//! The most groups that a tail of a refined price list has.
ghost use Rattle.refined_prices.specs.RefinedLists.{IsRefinedList};
ghost use Rattle.refined_prices.specs.tables.OffsetRows.{AreWithin};

use crate::refined::RefinedPrices;
use crate::tables::list_test::groups_at;
use instance_model::Instance;

/// The most groups that a tail has.
pub(crate) fn width_of(inst: &Instance, list: &RefinedPrices) -> usize
    requires { IsRefinedList inst.now list.now }
    ensures { AreWithin list.now.tails result }
{
    inst.fits();
    let mut width = 0;
    for u in 0..inst.periods() {
        width = width.max(groups_at(list.tails(), u + 1));
    }
    width
}
