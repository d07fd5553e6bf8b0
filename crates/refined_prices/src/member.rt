//! A scenario with its weight, as plain data.

/// A scenario of a period in a group, and its weight in thousandths.
#[derive(Clone, Copy, Debug, PartialEq, Eq)]
pub struct Member {
    pub scenario: u32,
    /// From 1 to 1000.
    pub weight: u32,
}
