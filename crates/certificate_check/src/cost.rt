//! The test of a `cost` leaf.
ghost use Rattle.std.specs.Prelude.{◌<◌, ◌^◌, length, All, IsTrue, ◌↔◌, unsigned_abs};
ghost use Rattle.lagrange_bound.specs.Boxes.{IsBox};
ghost use Rattle.lagrange_bound.specs.PricedTables.{IsPricedTable};
ghost use Rattle.certificate_tree.specs.Ranges.{IsBoundInRange};
ghost use Rattle.certificate_tree.specs.Holding.{IsAtLeast, CostHolds};
ghost use Rattle.certificate_tree.specs.PriceTables.{table_worths};

use certificate_tree::{Bound, has_starts};
use instance_model::Instance;
use lagrange_bound::{PriceTable, Span, worth};

/// Whether the bound is a number, and a worth or value is at least it.
pub(crate) fn is_at_least(bound: Bound, z: i128) -> bool
    requires bound { IsBoundInRange bound }
    requires small { unsigned_abs z < 10 ^ 37 }
    ensures { IsTrue result ↔ IsAtLeast bound z }
{
    match bound {
        Bound::NoPlan => false,
        Bound::Least(least) => least <= z,
    }
}

/// Whether each interval has an allowed start and the worth by a table is at least the bound. Takes no memory.
pub(crate) fn cost_holds(
    inst: &Instance,
    bound: Bound,
    tables: &[PriceTable],
    spans: &[Span],
    list: u32,
) -> bool
    requires bound { IsBoundInRange bound }
    requires priced { All (IsPricedTable inst.now) tables.now }
    requires spans { IsBox inst.now spans.now }
    requires list { list < length tables.now }
    ensures { IsTrue result ↔ CostHolds inst.now bound (table_worths tables.now) spans.now list }
{
    if !has_starts(inst, spans) {
        return false;
    }
    is_at_least(bound, worth(&tables[list as usize], spans))
}
