//! An offset, as plain data.

/// What a group of a period's tail counts more at each start of an intervention that is in progress there.
#[derive(Clone, Copy, Debug, PartialEq, Eq)]
pub struct Offset {
    pub period: u32,
    pub intervention: u32,
    pub group: u32,
    /// In thousandths of one unit of risk, from 1 to 10^9.
    pub value: u32,
}
