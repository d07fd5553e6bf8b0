//! A clique with its price, as plain data.
ghost use Rattle.std.specs.Prelude.{◌≡◌};

use lagrange_bound::Places;
use std::alloc::AllocError;

/// Interventions of which any two exclude each other in a period, with a price.
#[derive(Drop)]
pub struct Clique {
    pub period: u32,
    /// From 1 to 10^9.
    pub value: u32,
    /// Strictly ascending.
    pub members: Places,
}

impl Clone for Clique {
    ghost is_clone = { λ clique copy. copy ≡ clique };

    fn clone(&self) -> Result<Clique, AllocError> {
        Ok(Clique {
            period: self.period,
            value: self.value,
            members: self.members.clone()?,
        })
    }
}
