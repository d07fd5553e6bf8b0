//! Runs that are put on board or taken off it, and the change of sums by their risks.
ghost use Rattle.std.specs.Prelude.{◌≡◌, ◌^◌, ◌<◌, unsigned_abs};
ghost use Rattle.instance_model.specs.Plans.{IsSmallSum};
ghost use Rattle.scenario_rows.specs.RunChanges.{start_after};
ghost use Rattle.scenario_rows.specs.Changes.{changed};

use fixed_num::{Amount, Fixed, Sum};

/// Whether a run is put on board, so that its risks are added, or taken off.
#[derive(Clone, Copy)]
pub enum Change {
    Add,
    Take,
}

/// The run of intervention `i` at start `s` is put on board or taken off it.
#[derive(Clone, Copy)]
pub struct RunChange {
    pub change: Change,
    pub i: u32,
    pub s: u32,
}

impl Change {
    /// A scenario sum after the change by a risk.
    pub(crate) fn sum_after(self, sum: Sum, risk: Fixed) -> Sum
        requires { IsSmallSum (changed self sum risk) }
        ensures { result ≡ changed self sum risk }
    {
        match self {
            Change::Add => sum.plus(risk),
            Change::Take => sum.minus(risk),
        }
    }

    /// A total of scenario sums after the change by risks with this total.
    pub(crate) fn total_after(self, total: Amount, risk_total: Amount) -> Amount
        requires { unsigned_abs (changed self total risk_total) < 10 ^ 37 }
        ensures { result ≡ changed self total risk_total }
    {
        match self {
            Change::Add => total.plus(risk_total),
            Change::Take => total.minus(risk_total),
        }
    }

    /// What stands on board of an intervention with this start after the change.
    pub(crate) fn start_after(self, s: u32) -> Option<u32>
        ensures { result ≡ start_after self s }
    {
        match self {
            Change::Add => Some(s),
            Change::Take => None,
        }
    }
}
