//! The price tables of a tree's price lists, that of the list of zeros first.
ghost use Rattle.std.specs.Prelude.{All, IfOk};
ghost use Rattle.lagrange_bound.specs.Prices.{IsPriceList};
ghost use Rattle.certificate_tree.specs.PriceTables.{AreTables};

use instance_model::Instance;
use lagrange_bound::{Goal, PriceTable, Prices, tabulate};
use std::alloc::{AllocError, Global};

/// The tables of the list of zeros and of each price list: each has a price for each interval of a box of the instance
/// with an allowed start in each interval, and gives the worth of that box by its list.
pub fn tables_of<G: Goal>(
    alloc: Global,
    goal: &G,
    inst: &Instance,
    lists: &[Prices],
) -> Result<Vec<PriceTable>, AllocError>
    requires { All (IsPriceList inst.now) lists.now }
    ensures { IfOk result (λ tables. AreTables (G.base_gives goal.now) inst.now lists.now tables.items) }
{
    let zero = Prices::zero(alloc, inst)?;
    let mut tables = Vec::new(alloc);
    tables.push(tabulate(alloc, goal, inst, &zero)?)?;
    for prices in lists {
        tables.push(tabulate(alloc, goal, inst, prices)?)?;
    }
    Ok(tables)
}
