//! Laws of the definitions: a contract gets one by a call that does nothing.
ghost use Rattle.instance_model.specs.Rules.{FeasibleMeansKept};
ghost use Rattle.instance_model.specs.Keys.{NoViolationMeansFeasible};
ghost use Rattle.instance_model.specs.Exact.{PrintedValuesEnclose, CountsAreAReading, CostIsJustAboveScore};

use crate::instance::Instance;

/// Laws of the definitions, each for every plan of an instance. The functions do nothing: the contract is the law.
impl Instance {
    /// A plan breaks no rule exactly where each intervention has an allowed start, each load is within its limits and
    /// no exclusion is broken.
    pub fn feasible_means_kept(&self)
        ensures { FeasibleMeansKept self.now }
    {}

    /// A plan of allowed starts has no violation exactly where it is feasible.
    pub fn no_violation_means_feasible(&self)
        ensures { NoViolationMeansFeasible self.now }
    {}

    /// For each plan of allowed starts the printed values enclose the exact cost, mean and excess of every choice of
    /// numbers that rounds to the kept counts, those of the file among them.
    pub fn printed_values_enclose(&self)
        ensures { PrintedValuesEnclose self.now }
    {
        self.fits();
    }

    /// The kept counts are such a choice.
    pub fn counts_are_a_reading(&self)
        ensures { CountsAreAReading self.now }
    {}

    /// The exact cost of a plan is at least its score, in parts of the number of periods times 10^18, and less than
    /// 10^-18 above it.
    pub fn cost_is_just_above_score(&self)
        ensures { CostIsJustAboveScore self.now }
    {
        self.fits();
    }
}
