//! The groups that a refined price list weighs in a period, as plain data.
ghost use Rattle.std.specs.Prelude.{◌≡◌};

use crate::Groups;
use std::alloc::AllocError;

/// Disjoint groups of scenarios, as many as scenarios that the quantile leaves at or above it, or more.
#[derive(Drop)]
pub struct GroupTail {
    /// What the weights of each group add up to, in thousandths: from 1 to 1000.
    pub weight: u32,
    pub groups: Groups,
}

impl Clone for GroupTail {
    ghost is_clone = { λ tail copy. copy ≡ tail };

    fn clone(&self) -> Result<GroupTail, AllocError> {
        Ok(GroupTail {
            weight: self.weight,
            groups: self.groups.clone()?,
        })
    }
}
