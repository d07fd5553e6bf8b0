//! The price of an exclusion, as plain data.

/// The price of an exclusion in a period of its season.
#[derive(Clone, Copy, Debug, PartialEq, Eq)]
pub struct ExPrice {
    pub exclusion: u32,
    pub period: u32,
    /// From 1 to 10^9.
    pub value: u32,
}
