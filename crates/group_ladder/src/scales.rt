//! How far numbers of each kind may move.

use crate::number::{Scale, quotient};
use crate::units::{MEAN, PARTS};

/// What scales follow from.
#[derive(Clone, Copy)]
pub(crate) struct Scales {
    /// What the weights of a group come to.
    pub(crate) weight: i64,
    /// The mean risk of an intervention in a period in progress, in units.
    pub(crate) risk: i64,
    /// The mean load of one, in units.
    pub(crate) load: i64,
}

impl Scales {
    /// That of the prices on upper limits.
    pub(crate) fn upper(self) -> Scale {
        Scale {
            most: quotient(self.risk.saturating_mul(PARTS), self.load),
            small: self.load / 20,
        }
    }

    /// That of the price on this lower limit.
    pub(crate) fn lower(self, limit: i64) -> Scale {
        Scale {
            most: quotient(self.risk.saturating_mul(3).saturating_mul(PARTS), limit),
            small: limit / 20,
        }
    }

    /// That of the prices of cliques.
    pub(crate) fn cliques(self) -> Scale {
        Scale {
            most: self.risk.saturating_mul(PARTS),
            small: MEAN / 20,
        }
    }

    /// That of the weights in groups.
    pub(crate) fn weights(self) -> Scale {
        Scale {
            most: self.weight.saturating_mul(3) / 2,
            small: self.risk.saturating_mul(3) / 5,
        }
    }
}
