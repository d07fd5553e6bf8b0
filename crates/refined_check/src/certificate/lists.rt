//! The refined price lists of a certificate: contracts see the list.
ghost use Rattle.std.specs.Prelude.{◌≡◌};

use refined_prices::RefinedPrices;
use std::marker::Model;

/// The refined price lists of a certificate, list 1 first.
#[derive(Drop)]
pub struct RefinedLists {
    items: Vec<RefinedPrices>,
}

impl Model for RefinedLists {
    ghost use Rattle.std.specs.Prelude.{List};
    ghost use Rattle.refined_prices.specs.RefinedLists.{RefinedList};

    ghost Value = { List RefinedList };

    ghost view = { λ p. p.items.items };
}

impl RefinedLists {
    pub fn as_slice(&self) -> &[RefinedPrices]
        ensures { result.now ≡ self.now }
    {
        self.items.as_slice()
    }

    pub fn from_vec(items: Vec<RefinedPrices>) -> RefinedLists
        ensures { result ≡ items.items }
    {
        RefinedLists { items }
    }

    pub fn into_vec(self) -> Vec<RefinedPrices>
        ensures { result.items ≡ self }
    {
        let RefinedLists { items } = self;
        items
    }
}
