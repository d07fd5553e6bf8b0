//! The least and the greatest load of one resource in one period over a box.
ghost use Rattle.std.specs.Prelude.{◌≡◌, ◌≤◌, ◌+ℤ◌, ◌-ℤ◌, unsigned_abs};
ghost use Rattle.branch_search.specs.node_state.KeptLoads.{no_load};
ghost use Rattle.branch_search.specs.node_state.Extents.{IsSmallRange, replaced};

use crate::node_state::extent::Extent;
use fixed_num::{Amount, Fixed};

/// The least and the greatest load.
#[derive(Clone, Copy)]
pub(crate) struct LoadRange {
    pub(crate) least: Amount,
    pub(crate) greatest: Amount,
}

/// A sum of which one part is changed.
fn with_part(sum: Amount, before: Fixed, after: Fixed) -> Amount
    requires { unsigned_abs sum ≤ 1_000_000_000_000_000_000_000_000 }
    ensures { result ≡ (sum +ℤ after) -ℤ before }
{
    sum.plus(Amount::of(after.count()))
        .minus(Amount::of(before.count()))
}

impl LoadRange {
    /// From 0 to 0.
    pub(crate) fn none() -> LoadRange
        ensures { result ≡ no_load }
    {
        LoadRange {
            least: Amount::zero(),
            greatest: Amount::zero(),
        }
    }

    /// Puts the loads of the first `after_count` starts of one extent in the place
    /// of those of `before_count` of another.
    pub(crate) fn replace(
        &mut self,
        before: &Extent,
        before_count: u32,
        after: &Extent,
        after_count: u32,
    )
        requires { IsSmallRange self.old }
        ensures { self.new ≡ replaced self.old before.now before_count after.now after_count }
    {
        self.least = with_part(
            self.least,
            before.least_to(before_count),
            after.least_to(after_count),
        );
        self.greatest = with_part(
            self.greatest,
            before.greatest_to(before_count),
            after.greatest_to(after_count),
        );
    }
}
