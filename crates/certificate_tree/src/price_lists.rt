//! The price lists of a certificate: contracts see the list.
ghost use Rattle.std.specs.Prelude.{◌≡◌};

use lagrange_bound::Prices;
use std::marker::Model;

/// The price lists of a certificate, list 1 first.
#[derive(Drop)]
pub struct PriceLists {
    items: Vec<Prices>,
}

impl Model for PriceLists {
    ghost use Rattle.std.specs.Prelude.{List};
    ghost use Rattle.lagrange_bound.specs.Prices.{PriceList};

    ghost Value = { List PriceList };

    ghost view = { λ p. p.items.items };
}

impl PriceLists {
    pub fn as_slice(&self) -> &[Prices]
        ensures { result.now ≡ self.now }
    {
        self.items.as_slice()
    }

    pub fn from_vec(items: Vec<Prices>) -> PriceLists
        ensures { result ≡ items.items }
    {
        PriceLists { items }
    }

    pub fn into_vec(self) -> Vec<Prices>
        ensures { result.items ≡ self }
    {
        let PriceLists { items } = self;
        items
    }
}
