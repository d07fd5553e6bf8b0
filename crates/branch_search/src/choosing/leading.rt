//! The tables that the split of a box is chosen by: that of list 0, and of the others the one of greatest worth.
ghost use Rattle.branch_search.specs.Pricing.{ArePricedOver, IsLeadingOver};

use certificate_tree::greatest_worth;
use lagrange_bound::{PriceTable, Span};

/// The table of list 0, and another one with its number, if there is one.
#[derive(Clone, Copy)]
pub(crate) struct Leading<'a> {
    pub(crate) first: &'a PriceTable,
    pub(crate) other: Option<&'a PriceTable>,
    pub(crate) number: usize,
}

/// The tables that lead in a box: where there is only one other, no worth is computed.
pub(crate) fn leading_in<'a>(tables: &'a [PriceTable], spans: &[Span]) -> Leading<'a>
    requires { ArePricedOver spans.now tables.now }
    ensures { IsLeadingOver spans.now result }
{
    let others = &tables[1..];
    let number = if others.len() < 2 {
        0
    } else {
        greatest_worth(others, spans).0 as usize
    };
    Leading {
        first: &tables[0],
        other: others.get(number),
        number,
    }
}
