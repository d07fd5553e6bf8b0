//! Laws of trees and certificates. The functions do nothing: the contract is the law.
ghost use Rattle.certificate_tree.specs.Laws.{PartsHoldPlans, PartsHoldStarts, PartsAreBoxes, NodesAreOneTree};
ghost use Rattle.certificate_tree.specs.Laws.{LeavesHoldStarts, RootHoldsStarts, BandLeavesNoPlan, ExclLeavesNoPlan};
ghost use Rattle.certificate_tree.specs.Laws.{EmptyLeavesNoPlan, ValidBoundsPlans, ProvedBoundsPlans, ListsBoundBoxes};
ghost use Rattle.certificate_tree.specs.Laws.{TablesBoundBoxes, SameWorthsProveTheSame};

use lagrange_bound::{Goal, worth_bounds_plans};

/// Each feasible plan of a box lies in one of the two parts of its split.
pub fn parts_hold_plans()
    ensures { PartsHoldPlans }
{}

/// Each list of starts in a box lies in one of the two parts of its split, feasible or not.
pub fn parts_hold_starts()
    ensures { PartsHoldStarts }
{}

/// The two parts of a box of an instance are such boxes.
pub fn parts_are_boxes()
    ensures { PartsAreBoxes }
{}

/// The same nodes are those of one tree.
pub fn nodes_are_one_tree()
    ensures { NodesAreOneTree }
{}

/// Each list of starts in a box lies in the box of a leaf of every tree in range over it, and the box of all starts has
/// every list of starts from 1 to tmax.
pub fn leaves_hold_starts()
    ensures leaves { LeavesHoldStarts }
    ensures root { RootHoldsStarts }
{}

/// A box on which a `band`, an `excl` or an `empty` leaf holds has no feasible plan.
pub fn leaves_refute_plans()
    ensures band { BandLeavesNoPlan }
    ensures excl { ExclLeavesNoPlan }
    ensures empty { EmptyLeavesNoPlan }
{}

/// A valid certificate in range bounds every feasible plan, whatever the goal is: each has a value of at least the
/// bound, and where the bound is none, there is no feasible plan.
pub fn valid_bounds_plans<G: Goal>(goal: &G)
    ensures { ValidBoundsPlans (G.base_gives goal.now) (G.value_gives goal.now) }
{
    worth_bounds_plans(goal);
}

/// A proved claim bounds every feasible plan, where no feasible plan in a box has a value below a worth of the box.
pub fn proved_bounds_plans()
    ensures { ProvedBoundsPlans }
{}

/// No feasible plan in a box has a value below a worth of the box by price lists in range, whatever the goal is.
pub fn lists_bound_boxes<G: Goal>(goal: &G)
    ensures { ListsBoundBoxes (G.base_gives goal.now) (G.value_gives goal.now) }
{
    worth_bounds_plans(goal);
}

/// Nor by tables that give such worths.
pub fn tables_bound_boxes()
    ensures { TablesBoundBoxes }
{}

/// What is proved by some worths is proved by the same ones, and so is which leaf is the first that doesn't hold.
pub fn same_worths_prove_the_same()
    ensures { SameWorthsProveTheSame }
{}
