//! What is kept of a period.

/// Its number of scenarios, where its sums stand, what they come to, and its value.
#[derive(Clone, Copy)]
pub(crate) struct Period {
    pub(crate) scenarios: u32,
    /// The place of its first sum.
    pub(crate) first: usize,
    /// The rank of the quantile, counted from the greatest sum on.
    pub(crate) high: usize,
    pub(crate) total: i64,
    pub(crate) quantile: i64,
    pub(crate) value: i64,
}

/// What a change would make of a period: the total of its sums, by how much a sum rises at most, and a value that it
/// has at least.
#[derive(Clone, Copy)]
pub(crate) struct Outlook {
    pub(crate) total: i64,
    pub(crate) rise: i64,
    pub(crate) value: i64,
}

impl Outlook {
    pub(crate) fn empty() -> Outlook {
        Outlook {
            total: 0,
            rise: 0,
            value: 0,
        }
    }
}
