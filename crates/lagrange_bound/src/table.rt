//! The prices of all starts in a table, and the worth of a box: contracts see the entries and what no start changes.
ghost use Rattle.std.specs.Prelude.{◌≡◌, ℕ, ◌<◌, ◌≤◌, ◌*◌, ◌^◌, List, [], None, IfOk, length, map, pos, unsigned_abs};
ghost use Rattle.std.specs.Prelude.{slice_index_or, unwrap_or};
ghost use Rattle.fixed_num.specs.Sums.{sum_below};
ghost use Rattle.instance_model.specs.Tables.{Tables};
ghost use Rattle.lagrange_bound.specs.Least.{least_over};
ghost use Rattle.lagrange_bound.specs.declared.span.Span.{Span};
ghost use Rattle.lagrange_bound.specs.Lesser.{IsSmallPrice};
ghost use Rattle.lagrange_bound.specs.Prices.{IsPriceList};
ghost use Rattle.lagrange_bound.specs.Boxes.{IsBox, HasStarts, span_of};
ghost use Rattle.lagrange_bound.specs.Worth.{worth_of};
ghost use Rattle.lagrange_bound.specs.Pricings.{Pricing};
ghost use Rattle.lagrange_bound.specs.Tabulated.{table_of, row_of, rows_by, entry_of, priced_in, IsPricedBox, worth_in};
ghost use Rattle.lagrange_bound.specs.PricedTables.{IsPricingTable};

use crate::least_price::least_price;
use crate::limit_cost::fixed_cost;
use crate::price_rows::price_rows;
use crate::{Goal, Prices, Span};
use instance_model::Instance;
use std::alloc::{AllocError, Global};
use std::marker::Model;

/// The prices of all allowed starts, and what the prices add whatever the starts are.
///
/// Seen as one entry per intervention and start from 1 to tmax, the price or nothing where
/// the start isn't allowed, beside one number.
#[derive(Drop)]
pub struct PriceTable {
    rows: Vec<Vec<Option<i128>>>,
    fixed: i128,
}

impl Model for PriceTable {
    ghost use Rattle.lagrange_bound.specs.Tabulated.{PriceRows};

    ghost Value = { PriceRows };

    ghost use Rattle.lagrange_bound.specs.Small.{view_of, IsSmallTable};

    ghost view = { view_of };

    ghost invariant = { IsSmallTable };
}

impl PriceTable {
    /// The table of these rows, by intervention, then start, and of what is added whatever the starts are.
    pub fn from_rows(rows: Vec<Vec<Option<i128>>>, fixed: i128) -> PriceTable
        requires few { length rows.items ≤ 1024 }
        requires prices { (i k : ℕ) →
            IsSmallPrice (slice_index_or (slice_index_or (map (λ row. row.items) rows.items) i []) k None) }
        requires fixed { unsigned_abs fixed < 10 ^ 36 }
        ensures rows { result.rows ≡ map (λ row. row.items) rows.items }
        ensures fixed { result.fixed ≡ fixed }

        // Of the rows and the constant of a pricing, the table gives its worth to each box with starts.
        ensures pricing { (inst : Tables) (pricing : Pricing) →
            map (λ row. row.items) rows.items ≡ rows_by pricing.price inst → fixed ≡ pricing.constant →
            IsPricingTable inst pricing result }
    {
        PriceTable { rows, fixed }
    }

    /// The entries of intervention `i`, by start; none where there is no such intervention.
    pub fn row(&self, i: u32) -> &[Option<i128>]
        ensures { result.now ≡ row_of self.now i }
    {
        match self.rows.get(i as usize) {
            Some(row) => row.as_slice(),
            None => &[],
        }
    }
}

/// The prices of all allowed starts.
pub fn tabulate<G: Goal>(
    alloc: Global,
    goal: &G,
    inst: &Instance,
    prices: &Prices,
) -> Result<PriceTable, AllocError>
    requires { IsPriceList inst.now prices.now }
    ensures value { IfOk result (λ table.
        table ≡ table_of (G.base_gives goal.now inst.now prices.now) inst.now prices.now) }

    // Over a box of the instance with an allowed start in each interval, the table's worth is that of the prices.
    ensures boxes { IfOk result (λ table.
        (box : List Span) → IsBox inst.now box → HasStarts inst.now box → IsPricedBox table box) }
    ensures worths { IfOk result (λ table.
        (box : List Span) → IsBox inst.now box → HasStarts inst.now box →
        worth_in table box ≡ worth_of (G.base_gives goal.now inst.now prices.now) inst.now prices.now box) }
{
    inst.fits();
    let rows = price_rows(alloc, goal, inst, prices)?;
    Ok(PriceTable::from_rows(rows, fixed_cost(inst, prices)))
}

/// The worth of a box with a price in each interval. Takes no memory.
pub fn worth(table: &PriceTable, spans: &[Span]) -> i128
    requires { IsPricedBox table.now spans.now }
    ensures value { result ≡ worth_in table.now spans.now }
    ensures small { unsigned_abs result < 10 ^ 37 }
{
    least_prices(table, spans) + table.fixed
}

/// The sum of the least prices of all intervals.
fn least_prices(table: &PriceTable, spans: &[Span]) -> i128
    requires { IsPricedBox table.now spans.now }
    ensures value { result ≡ sum_below (length table.now.rows) (λ i.
        least_over (λ s. unwrap_or (entry_of table.now i s) (pos 0)) (priced_in table.now i (span_of spans.now i))) }
    ensures small { unsigned_abs result ≤ 1024 * 8_000_000_000_000_000_000_000_000_000_000_000 }
{
    let mut sum: i128 = 0;
    for i in 0..table.rows.len() {
        sum += least_price(table.rows[i].as_slice(), spans[i]);
    }
    sum
}
