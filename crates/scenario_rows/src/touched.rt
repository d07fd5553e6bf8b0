//! The periods in which runs are in progress.
ghost use Rattle.std.specs.Prelude.{◌≡◌, ℕ, ◌+◌, ◌<◌, ◌≤◌, false, All};
ghost use Rattle.instance_model.specs.Tables.{in_run as in_run_of};
ghost use Rattle.duration_calendar.specs.Windows.{in_window};
ghost use Rattle.scenario_rows.specs.RunChanges.{IsKnownRun};
ghost use Rattle.scenario_rows.specs.Shifts.{IsIdle};

use crate::change::RunChange;
use duration_calendar::{Window, in_run, run};
use instance_model::Instance;

/// Whether a run is in progress in period `t`.
pub(crate) fn is_running(inst: &Instance, one: RunChange, t: u32) -> bool
    requires { IsKnownRun inst.now one }
    ensures { result ≡ in_run_of inst.now one.i one.s t }
{
    in_run(run(inst, one.i, one.s), t)
}

/// The first period of a window from `t` on, or `past`, where there is none.
#[tactic(auto, using(std::proofs::lemmas::Bool::Decides::nat_tests), unfolding(duration_calendar::specs::Windows::in_window))]
fn first_in(window: Window, t: u32, past: u32) -> u32
    requires order { window.from ≤ window.past }
    requires ends { window.past ≤ past }
    requires to { t ≤ past }
    ensures from { t ≤ result }
    ensures to { result ≤ past }
    ensures idle { (u : ℕ) → t ≤ u → u < result → in_window window u ≡ false }
{
    if t < window.past {
        window.from.max(t)
    } else {
        past
    }
}

/// The first period from `t` on in which a run is in progress, or the one behind the last period.
fn first_of_run(inst: &Instance, one: RunChange, t: u32) -> u32
    requires known { IsKnownRun inst.now one }
    requires to { t ≤ inst.now.periods + 1 }
    ensures from { t ≤ result }
    ensures to { result ≤ inst.now.periods + 1 }
    ensures idle { (u : ℕ) → t ≤ u → u < result → IsIdle inst.now u one }
{
    first_in(run(inst, one.i, one.s), t, inst.periods() + 1)
}

/// The first period from `t` on in which one of the runs is in progress, or the one behind the last period.
pub(crate) fn next_touched(inst: &Instance, runs: &[RunChange], t: u32) -> u32
    requires known { All (IsKnownRun inst.now) runs.now }
    requires to { t ≤ inst.now.periods + 1 }
    ensures from { t ≤ result }
    ensures to { result ≤ inst.now.periods + 1 }
    ensures idle { (u : ℕ) → t ≤ u → u < result → All (IsIdle inst.now u) runs.now }
{
    let mut next = inst.periods() + 1;
    for one in runs {
        next = next.min(first_of_run(inst, *one, t));
    }
    next
}
