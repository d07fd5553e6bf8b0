//! Windows of periods.
ghost use Rattle.std.specs.Prelude.{◌≡◌};
ghost use Rattle.duration_calendar.specs.Windows.{in_window};

/// The periods from `from` to `past - 1`.
#[derive(Clone, Copy, Debug, PartialEq, Eq)]
pub struct Window {
    pub from: u32,
    pub past: u32,
}

/// Whether period `t` is in a window.
#[tactic(auto, using(std::proofs::lemmas::Bool::Decides::nat_tests), unfolding(crate::specs::Windows::in_window))]
pub fn in_run(window: Window, t: u32) -> bool
    ensures { result ≡ in_window window t }
{
    window.from <= t && t < window.past
}
