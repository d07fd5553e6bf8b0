//! The price tables of a certificate's lists, the list of zeros first.
ghost use Rattle.std.specs.Prelude.{◌≡◌, length, map, All, IfOk};
ghost use Rattle.std.specs.List.{range_with_len};
ghost use Rattle.lagrange_bound.specs.PricedTables.{IsPricingTable};
ghost use Rattle.refined_prices.specs.RefinedLists.{IsRefinedList};
ghost use Rattle.refined_prices.specs.RefinedWorth.{refined_constant, refined_pricing};
ghost use Rattle.refined_prices.specs.tables.RefinedRows.{refined_row};
ghost use Rattle.refined_check.specs.Worths.{AreRefinedTables};

use instance_model::Instance;
use lagrange_bound::{PriceTable, Prices, RiskGoal, tabulate};
use refined_prices::{RefinedPrices, refined_prices_are_small, refined_rows};
use std::alloc::{AllocError, Global};

/// The table of a refined price list.
pub fn refined_table(
    alloc: Global,
    inst: &Instance,
    list: &RefinedPrices,
) -> Result<PriceTable, AllocError>
    requires { IsRefinedList inst.now list.now }
    ensures rows { IfOk result (λ table. table.rows
        ≡ map (refined_row inst.now list.now) (range_with_len 0 (length inst.now.names))) }
    ensures constant { IfOk result (λ table. table.fixed ≡ refined_constant inst.now list.now) }

    // Over a box of the instance with an allowed start in each interval, the table's worth is that of the list.
    ensures worths { IfOk result (IsPricingTable inst.now (refined_pricing inst.now list.now)) }
{
    inst.fits();
    refined_prices_are_small();
    let (rows, constant) = refined_rows(alloc, inst, list)?;
    Ok(PriceTable::from_rows(rows, constant))
}

/// The tables of the list of zeros and of each refined price list.
pub fn refined_tables_of(
    alloc: Global,
    inst: &Instance,
    lists: &[RefinedPrices],
) -> Result<Vec<PriceTable>, AllocError>
    requires { All (IsRefinedList inst.now) lists.now }
    ensures { IfOk result (λ tables. AreRefinedTables inst.now lists.now tables.items) }
{
    let zero = Prices::zero(alloc, inst)?;
    let mut tables = Vec::new(alloc);
    tables.push(tabulate(alloc, &RiskGoal, inst, &zero)?)?;
    for list in lists {
        tables.push(refined_table(alloc, inst, list)?)?;
    }
    Ok(tables)
}
