//! The risks of a run, added to scenario sums.
ghost use Rattle.std.specs.Prelude.{◌≡◌, ◌+◌, ◌<◌, ◌≤◌, pos, ◌+ℤ◌, length, IsTrue, All, slice_index_or};
ghost use Rattle.fixed_num.specs.Sums.{list_of};
ghost use Rattle.instance_model.specs.Tables.{scenarios_of, risk_of, is_allowed, in_run};
ghost use Rattle.instance_model.specs.Plans.{IsSmallSum};

use crate::instance::Instance;
use fixed_num::{Steps, Sum};
use std::sync::ledger::Ledger;

impl Instance {
    /// Adds the risks of intervention `i` at start `s` in period `t` to the scenario sums of that period.
    /// Counts as one step for each scenario.
    pub fn add_risks<L: Ledger>(
        &self,
        i: u32,
        s: u32,
        t: u32,
        sums: &mut [Sum],
        steps: &mut Steps<L>,
    )
        requires number { i < length self.now.names }
        requires allowed { IsTrue (is_allowed self.now i s) }
        requires running { IsTrue (in_run self.now i s t) }
        requires from { 1 ≤ t }
        requires to { t ≤ self.now.periods }
        requires each { length sums.old ≡ scenarios_of self.now t }
        requires room { All IsSmallSum sums.old }
        ensures sums { sums.new ≡ list_of (scenarios_of self.now t) (λ k.
            slice_index_or sums.old k (pos 0) +ℤ risk_of self.now i s t (k + 1)) }
        ensures cost { steps.new ≡ steps.old + scenarios_of self.now t }
    {
        self.fits();
        let risks = self.risks(i, s, t, steps);
        for k in 0..risks.len() {
            sums[k] = sums[k].plus(risks.at(k));
        }
    }
}
