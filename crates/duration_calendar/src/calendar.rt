//! Runs, first allowed starts and shared periods of a season, each exactly as the definition has it.
ghost use Rattle.std.specs.Prelude.{◌≡◌, ℕ, ◌+◌, ◌<◌, ◌≤◌, length, IfSome, IfNone, IsTrue};
ghost use Rattle.instance_model.specs.Tables.{is_allowed, in_run};
ghost use Rattle.duration_calendar.specs.Windows.{in_window, IsInHorizon, run_of};
ghost use Rattle.duration_calendar.specs.Calendar.{IsAllowedIn, IsFirstAllowed, IsMeeting, IsFirstMeeting};

use crate::window::Window;
use instance_model::Instance;

/// The run of intervention `i` at start `s`.
pub fn run(inst: &Instance, i: u32, s: u32) -> Window
    requires number { i < length inst.now.names }
    requires allowed { IsTrue (is_allowed inst.now i s) }
    ensures value { result ≡ run_of inst.now i s }
    ensures periods { (t : ℕ) → in_window result t ≡ in_run inst.now i s t }
    ensures starts { 1 ≤ result.from }
    ensures order { result.from ≤ result.past }
    ensures ends { result.past ≤ inst.now.periods + 1 }
    ensures horizon { IsInHorizon inst.now result }
{
    inst.fits();
    let duration = inst.delta(i, s);
    Window {
        from: s,
        past: s + duration,
    }
}

/// The least allowed start of intervention `i` from `a` to `b`.
pub fn first_allowed(inst: &Instance, i: u32, a: u32, b: u32) -> Option<u32>
    requires { i < length inst.now.names }
    ensures found { IfSome result (IsFirstAllowed inst.now i a b) }
    ensures none { IfNone result ((s : ℕ) → ¬ IsAllowedIn inst.now i a b s) }
{
    inst.fits();
    let past = b.min(inst.tmax(i)) + 1;
    for s in a..past {
        if inst.allowed(i, s) {
            return Some(s);
        }
    }
    None
}

/// The least period of season `season` that is in both windows.
pub fn meets_in(inst: &Instance, season: u32, x: Window, y: Window) -> Option<u32>
    requires season { season < length inst.now.season_names }
    requires first { IsInHorizon inst.now x }
    requires second { IsInHorizon inst.now y }
    ensures found { IfSome result (IsFirstMeeting inst.now season x y) }
    ensures none { IfNone result ((t : ℕ) → ¬ IsMeeting inst.now season x y t) }
{
    let from = x.from.max(y.from);
    let past = x.past.min(y.past);
    for t in from..past {
        if inst.in_season(season, t) {
            return Some(t);
        }
    }
    None
}
