//! The table by which a box is worth most.
ghost use Rattle.std.specs.Prelude.{◌≡◌, ◌-◌, ◌<◌, ◌≤◌, ◌^◌, length, All, unsigned_abs};
ghost use Rattle.lagrange_bound.specs.Tabulated.{IsPricedBox};
ghost use Rattle.certificate_tree.specs.Holding.{IsGreatest};
ghost use Rattle.certificate_tree.specs.PriceTables.{table_worths};

use lagrange_bound::{PriceTable, Span, worth};

/// The table of greatest worth, of the least number where several have it, and that worth. Takes no memory.
pub fn greatest_worth(tables: &[PriceTable], spans: &[Span]) -> (u32, i128)
    requires some { 0 < length tables.now }
    requires few { length tables.now ≤ 17 }
    requires priced { All (λ table. IsPricedBox table spans.now) tables.now }
    ensures table { IsGreatest (table_worths tables.now spans.now) (length tables.now - 1) result.0 }
    ensures value { result.1 ≡ table_worths tables.now spans.now result.0 }
    ensures small { unsigned_abs result.1 < 10 ^ 37 }
{
    let mut table = 0;
    let mut most = worth(&tables[0], spans);
    for j in 1..tables.len() {
        let other = worth(&tables[j], spans);
        if most < other {
            table = j as u32;
            most = other;
        }
    }
    (table, most)
}
