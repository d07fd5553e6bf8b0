//! The least of several amounts, and which one it is.

/// An amount, and the place where it stands.
#[derive(Clone, Copy)]
pub(crate) struct Least {
    pub(crate) value: i64,
    pub(crate) place: usize,
}

impl Least {
    /// Greater than any.
    pub(crate) fn none() -> Least {
        Least {
            value: i64::MAX,
            place: 0,
        }
    }

    /// The lesser of this and another amount, the first of equal ones.
    pub(crate) fn or(self, value: i64, place: usize) -> Least {
        if value < self.value {
            Least { value, place }
        } else {
            self
        }
    }
}
