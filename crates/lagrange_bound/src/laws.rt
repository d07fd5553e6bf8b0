//! What prices prove, and how large what they prove can be.
ghost use Rattle.lagrange_bound.specs.Goals.{ValuesAreSmall};
ghost use Rattle.lagrange_bound.specs.Pricings.{PricesAreLawful, LawfulWorthsBoundPlans};
ghost use Rattle.lagrange_bound.specs.Worth.{WorthBoundsPlans, WorthsAreSmall};

use crate::Goal;

/// The prices of the starts of a feasible plan, and what the prices add whatever the starts are, come to at most its
/// value, whatever the prices in range are.
pub fn prices_are_lawful<G: Goal>(_goal: &G)
    ensures { PricesAreLawful (G.base_gives _goal.now) (G.value_gives _goal.now) }
{}

/// Where prices by intervention and start, and a constant, have that law, no feasible plan in a box has a value below
/// the worth of the box.
pub fn lawful_worths_bound_plans()
    ensures { LawfulWorthsBoundPlans }
{}

/// No feasible plan in a box has a value below the worth of the box, whatever the prices in range are.
pub fn worth_bounds_plans<G: Goal>(_goal: &G)
    ensures { WorthBoundsPlans (G.base_gives _goal.now) (G.value_gives _goal.now) }
{}

/// Worths and values are small: the worth of a box with an allowed start in each interval, by a list in range whose
/// numbers come to at most 4 * 10^10, and the value of a plan of allowed starts.
pub fn worths_are_small<G: Goal>(_goal: &G)
    ensures worths { WorthsAreSmall (G.base_gives _goal.now) }
    ensures values { ValuesAreSmall (G.value_gives _goal.now) }
{}
