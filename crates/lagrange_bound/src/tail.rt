//! The scenarios that a price list weighs in a period, as plain data.
ghost use Rattle.std.specs.Prelude.{◌≡◌};

use crate::Places;
use std::alloc::AllocError;

/// A weight in thousandths, and at least as many scenarios of a period as the quantile leaves at or above it.
#[derive(Drop)]
pub struct Tail {
    /// From 1 to 1000.
    pub weight: u32,
    /// Strictly ascending.
    pub places: Places,
}

impl Clone for Tail {
    ghost is_clone = { λ tail copy. copy ≡ tail };

    fn clone(&self) -> Result<Tail, AllocError> {
        Ok(Tail {
            weight: self.weight,
            places: self.places.clone()?,
        })
    }
}
