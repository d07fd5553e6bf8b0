//! What refined price lists and valid certificates by them prove, and which price lists are refined ones. The functions
//! do nothing: the contract is the law.
ghost use Rattle.refined_check.specs.Laws.{RefinedListsBoundBoxes, RefinedValidBoundsPlans};
ghost use Rattle.refined_check.specs.Singles.{PriceListsAreRefined};

use certificate_tree::proved_bounds_plans;
use lagrange_bound::{RiskGoal, lawful_worths_bound_plans, prices_are_lawful};
use refined_prices::refined_lists_are_lawful;

/// No feasible plan in a box scores below a worth of the box by refined price lists in range, or by the list of zeros.
pub fn refined_lists_bound_boxes()
    ensures { RefinedListsBoundBoxes }
{
    prices_are_lawful(&RiskGoal);
    refined_lists_are_lawful();
    lawful_worths_bound_plans();
}

/// No feasible plan scores below the bound of a valid certificate in range by refined price lists; where the bound is
/// none, there is no feasible plan.
pub fn refined_valid_bounds_plans()
    ensures { RefinedValidBoundsPlans }
{
    refined_lists_bound_boxes();
    proved_bounds_plans();
}

/// Each price list is a refined one: with the scenarios of each tail as groups of one, without caps, offsets and
/// cliques, it is in range, and has the same price at each start and the same constant.
pub fn price_lists_are_refined()
    ensures { PriceListsAreRefined }
{}
