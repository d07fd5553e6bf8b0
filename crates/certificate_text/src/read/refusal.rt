//! Why a line is refused where it stands.

/// Why a line is refused where it stands.
#[derive(Clone, Copy, Debug, PartialEq, Eq)]
pub enum Refusal {
    /// It is none that may stand there.
    Misplaced,
    /// A number of it is out of its range.
    OutOfRange,
}
