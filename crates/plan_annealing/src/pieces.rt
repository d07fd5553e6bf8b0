//! What the risks of a run in a period come to.

/// The sum, the least and the greatest of some risks. The tag says whose they are: one more than the number of the
/// piece, 0 where they are nobody's.
#[derive(Clone, Copy)]
pub(crate) struct Piece {
    pub(crate) tag: usize,
    pub(crate) sum: i64,
    pub(crate) least: i64,
    pub(crate) greatest: i64,
}

impl Piece {
    /// That of no risks, as nobody's.
    pub(crate) fn empty() -> Piece {
        Piece {
            tag: 0,
            sum: 0,
            least: 0,
            greatest: 0,
        }
    }

    /// That of some risks.
    pub(crate) fn of(tag: usize, risks: &[i64]) -> Piece {
        let mut sum: i64 = 0;
        let mut least = i64::MAX;
        let mut greatest = i64::MIN;
        for risk in risks {
            sum = sum.wrapping_add(*risk);
            least = least.min(*risk);
            greatest = greatest.max(*risk);
        }
        Piece {
            tag,
            sum,
            least,
            greatest,
        }
    }
}
