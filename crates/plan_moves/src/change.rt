//! A change of a plan.

/// A change of a plan. Interventions count from 0.
#[derive(Clone, Copy, Debug, PartialEq, Eq)]
pub enum Change {
    /// Intervention `i` starts at `s`.
    Move { i: u32, s: u32 },
    /// The starts of interventions `i` and `j` are exchanged.
    Swap { i: u32, j: u32 },
}
