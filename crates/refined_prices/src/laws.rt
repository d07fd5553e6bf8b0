//! What refined price lists prove, and how large what they prove can be. The functions do nothing: the contract is the
//! law.
ghost use Rattle.refined_prices.specs.Caps.{CapKeepsLowerLimit};
ghost use Rattle.refined_prices.specs.Cliques.{AtMostOneRuns, NamedTwiceNeverRuns};
ghost use Rattle.refined_prices.specs.RefinedWorth.{LimitsAddNothing, RefinedListsAreLawful};
ghost use Rattle.refined_prices.specs.RefinedSizes.{RefinedPricesAreSmall, RefinedConstantsAreSmall};
ghost use Rattle.refined_prices.specs.RefinedSizes.{RefinedWorthsFit, RefinedWorthsAreSmall};

use instance_model::Instance;

/// A plan of allowed starts that keeps a lower limit keeps it also where no load counts for more than the cap.
pub fn caps_keep_lower_limits(inst: &Instance)
    ensures { CapKeepsLowerLimit inst.now }
{}

/// Where a plan keeps the rules, at most one of a clique is in progress in its period; and an intervention that an
/// exclusion names twice isn't in progress in the season.
pub fn at_most_one_of_a_clique_runs(inst: &Instance)
    ensures one { AtMostOneRuns inst.now }
    ensures named_twice { NamedTwiceNeverRuns inst.now }
{}

/// The prices of the starts of a feasible plan and the constant come to at most its score, whatever the list in range
/// is: over such a plan the prices on limits, exclusions and cliques add nothing, or less.
pub fn refined_lists_are_lawful()
    ensures limits { LimitsAddNothing }
    ensures lawful { RefinedListsAreLawful }
{}

/// Prices of allowed starts are below 8 * 10^33 and constants below 10^34 in absolute value, and the worth of a box
/// with an allowed start in each interval fits 128 bits; where the prices of the list come to at most 4 * 10^10, it is
/// at most 10^36.
pub fn refined_prices_are_small()
    ensures prices { RefinedPricesAreSmall }
    ensures constants { RefinedConstantsAreSmall }
    ensures worths_fit { RefinedWorthsFit }
    ensures worths { RefinedWorthsAreSmall }
{}
