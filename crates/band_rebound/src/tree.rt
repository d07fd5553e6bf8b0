//! A tree of boxes for changed bands, by tables of prices.
ghost use Rattle.std.specs.Prelude.{◌≡◌, ℕ, ◌-◌, ◌<◌, ◌≤◌, length, All, IfOk};
ghost use Rattle.lagrange_bound.specs.Goals.{risk_value};
ghost use Rattle.lagrange_bound.specs.PricedTables.{IsPricedTable};
ghost use Rattle.certificate_lines.specs.declared.line.Bound.{Bound};
ghost use Rattle.certificate_lines.specs.declared.line.Bound.TheVariants.{NoPlan};
ghost use Rattle.certificate_tree.specs.Trees.{Tree};
ghost use Rattle.certificate_tree.specs.Ranges.{IsBoundInRange};
ghost use Rattle.certificate_tree.specs.Validity.{IsTreeOfClaim, IsProved, BoundBoxes, BoundsPlans};
ghost use Rattle.certificate_tree.specs.PriceTables.{table_worths, claim_by};
ghost use Rattle.band_rebound.specs.declared.rebounded.ReboundTree.{ReboundTree};
ghost use Rattle.band_rebound.specs.Rebinding.{ReachLeastBound, IsNoLower};
ghost use Rattle.band_rebound.specs.Rebounds.{IsReboundBy};

use crate::ReboundTree;
use crate::growth::Growth;
use crate::walk::grow;
use certificate_tree::{Node, Nodes, nodes_are_one_tree, proved_bounds_plans};
use instance_model::Instance;
use lagrange_bound::{PriceTable, RiskGoal, worths_are_small};
use std::alloc::{AllocError, Global};

/// The tree with the same splits and the bound that it proves for this instance, by these tables of prices.
///
/// Takes memory for the new nodes, for one box and a change for each level of the tree, and for the plan and the score
/// of a point.
pub fn rebound_by(
    alloc: Global,
    inst: &Instance,
    nodes: &[Node],
    tables: &[PriceTable],
) -> Result<ReboundTree, AllocError>
    requires some { 0 < length tables.now }
    requires few { length tables.now ≤ 17 }
    requires priced { All (IsPricedTable inst.now) tables.now }
    requires tree { (t : Tree) × IsTreeOfClaim inst.now (claim_by NoPlan tables.now nodes.now) t }
    ensures rebound { IfOk result (IsReboundBy inst.now (length tables.now - 1) (table_worths tables.now) nodes.now) }

    // No other answer is right.
    ensures only { IfOk result (λ answer. (other : ReboundTree) →
        IsReboundBy inst.now (length tables.now - 1) (table_worths tables.now) nodes.now other → other ≡ answer) }

    // Its tree is in range, and each leaf holds, for the new bound.
    ensures proved { IfOk result
        (λ answer. IsProved risk_value inst.now (claim_by answer.bound tables.now answer.nodes)) }

    // The bound is in range where no box is worth less than a bound may be.
    ensures in_range { IfOk result
        (λ answer. ReachLeastBound inst.now (table_worths tables.now) → IsBoundInRange answer.bound) }

    // Where no plan of a box scores below a worth of the box, no feasible plan scores below the new bound.
    ensures bounds { IfOk result (λ answer.
        BoundBoxes risk_value inst.now (length tables.now - 1) (table_worths tables.now)
        → BoundsPlans risk_value inst.now answer.bound) }

    // And the new bound is no lower than any that the old tree proves itself.
    ensures no_lower { IfOk result (λ answer.
        BoundBoxes risk_value inst.now (length tables.now - 1) (table_worths tables.now)
        → (old : Bound) → IsBoundInRange old → IsProved risk_value inst.now (claim_by old tables.now nodes.now)
        → IsNoLower old answer.bound) }
{
    inst.fits();
    nodes_are_one_tree();
    proved_bounds_plans();
    worths_are_small(&RiskGoal);
    let growth = grow(alloc, inst, nodes, tables)?;
    let Growth {
        nodes,
        bound,
        kept,
        changed,
    } = growth;
    Ok(ReboundTree {
        bound,
        nodes: Nodes::from_vec(nodes),
        kept,
        changed,
    })
}
