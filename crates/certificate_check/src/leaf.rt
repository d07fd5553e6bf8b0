//! The test of any leaf on its box.
ghost use Rattle.std.specs.Prelude.{◌<◌, ◌-◌, length, All, IsTrue, IfOk, ◌↔◌};
ghost use Rattle.lagrange_bound.specs.Boxes.{IsBox};
ghost use Rattle.lagrange_bound.specs.PricedTables.{IsPricedTable};
ghost use Rattle.certificate_tree.specs.Ranges.{IsBoundInRange, IsLeafInRange};
ghost use Rattle.certificate_tree.specs.Holding.{LeafHolds};
ghost use Rattle.certificate_tree.specs.PriceTables.{table_worths};

use crate::cost::cost_holds;
use crate::point::point_holds;
use certificate_tree::{Bound, Node, band_holds, excl_holds, has_start};
use instance_model::Instance;
use lagrange_bound::{Goal, PriceTable, Span};
use std::alloc::{AllocError, Global};

/// Whether a leaf holds on its box.
pub(crate) fn leaf_holds<G: Goal>(
    alloc: Global,
    goal: &G,
    inst: &Instance,
    bound: Bound,
    tables: &[PriceTable],
    spans: &[Span],
    leaf: Node,
) -> Result<bool, AllocError>
    requires bound { IsBoundInRange bound }
    requires some { 0 < length tables.now }
    requires priced { All (IsPricedTable inst.now) tables.now }
    requires spans { IsBox inst.now spans.now }
    requires leaf { IsLeafInRange inst.now (length tables.now - 1) leaf }
    ensures { IfOk result (λ b. IsTrue b ↔
        LeafHolds (G.value_gives goal.now) inst.now bound (table_worths tables.now) spans.now leaf) }
{
    match leaf {
        Node::Split { .. } => unreachable!(),
        Node::Cost { list } => Ok(cost_holds(inst, bound, tables, spans, list)),
        Node::Point => point_holds(alloc, goal, inst, bound, spans),
        Node::Band { c, t, side } => Ok(band_holds(inst, spans, c, t, side)),
        Node::Excl { e } => Ok(excl_holds(inst, spans, e)),
        Node::Empty { i } => Ok(!has_start(inst, i, spans[i as usize])),
    }
}
