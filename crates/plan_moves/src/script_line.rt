//! A line of a move script.

/// A line of a move script: a change of the present plan, or the way back from
/// the last one. Interventions count from 0.
#[derive(Clone, Copy, Debug, PartialEq, Eq)]
pub enum ScriptLine {
    /// Intervention `i` starts at `s`.
    Move { i: u32, s: u32 },
    /// The starts of interventions `i` and `j` are exchanged.
    Swap { i: u32, j: u32 },
    /// The present plan is taken off.
    Undo,
}
