//! Counts of the numbers under risk and under workload.

ghost use Rattle.std.specs.Prelude.{◌≡◌, ◌≤◌, ℕ, None};
ghost use Rattle.instance_shape.specs.ShapeFaults.{is_risk, is_workload};
ghost use Rattle.shape_walk.specs.Awaits.{room_at};
ghost use Rattle.shape_walk.specs.Counts.{AreWithin};
ghost use Rattle.shape_walk.specs.Flaws.{first_flaw};
ghost use Rattle.shape_walk.specs.Machine.{more_if, number_past};
ghost use Rattle.shape_walk.specs.Runs.{many_if};

use instance_model::Limits;
use instance_shape::{Flaw, Spot, Which};

/// How many numbers stood under risk and under workload.
#[derive(Drop)]
pub struct Counts {
    pub risks: u64,
    pub workloads: u64,
}

impl Counts {
    /// Counts a number at a spot. A flaw: the limit allows no more.
    pub fn count(&mut self, limits: &Limits, spot: Spot) -> Option<Flaw>
        requires { AreWithin limits.now self.old }
        ensures past { (at : ℕ) → result
            ≡ first_flaw (number_past limits.now spot at self.old.risks self.old.workloads) }
        ensures risks { result ≡ None → self.new.risks ≡ more_if (is_risk spot) self.old.risks }
        ensures workloads { result ≡ None → self.new.workloads ≡ more_if (is_workload spot) self.old.workloads }
        ensures within { AreWithin limits.now self.new }
    {
        match spot {
            Spot::RiskNumber => {
                if self.risks == limits.risk_cells {
                    return Some(Flaw::Limit(Which::RiskCells));
                }
                self.risks += 1;
            }
            Spot::WorkloadNumber => {
                if self.workloads == limits.workload_entries {
                    return Some(Flaw::Limit(Which::WorkloadEntries));
                }
                self.workloads += 1;
            }
            _ => {}
        }
        None
    }

    /// How many more numbers at a spot the limits allow: `u64::MAX` where they bound none.
    pub fn room(&self, limits: &Limits, spot: Spot) -> u64
        requires { AreWithin limits.now self.now }
        ensures { result ≡ room_at limits.now spot self.now.risks self.now.workloads }
    {
        match spot {
            Spot::RiskNumber => limits.risk_cells - self.risks,
            Spot::WorkloadNumber => limits.workload_entries - self.workloads,
            _ => u64::MAX,
        }
    }

    /// Counts so many numbers at a spot, which the limits allow.
    pub fn count_all(&mut self, limits: &Limits, spot: Spot, count: u64)
        requires within { AreWithin limits.now self.old }
        requires room { count ≤ room_at limits.now spot self.old.risks self.old.workloads }
        ensures risks { self.new.risks ≡ many_if (is_risk spot) count self.old.risks }
        ensures workloads { self.new.workloads ≡ many_if (is_workload spot) count self.old.workloads }
        ensures within { AreWithin limits.now self.new }
    {
        match spot {
            Spot::RiskNumber => {
                prove!(count <= limits.risk_cells - self.risks);
                self.risks += count;
            }
            Spot::WorkloadNumber => {
                prove!(count <= limits.workload_entries - self.workloads);
                self.workloads += count;
            }
            _ => {}
        }
    }
}
