//! What a limit or an exclusion weighs in the search for a plan that keeps them all.
//!
//! Weights stop at the ends of their type: nothing rests on them.

/// A weight that grows while what it belongs to stays broken, and the one that it had at first.
#[derive(Clone, Copy)]
pub(crate) struct Weight {
    now: i64,
    first: i64,
}

impl Weight {
    pub(crate) fn new(first: i64) -> Weight {
        Weight { now: first, first }
    }

    /// The weight.
    #[inline]
    pub(crate) fn now(self) -> i64 {
        self.now
    }

    /// Adds three tenths of the first weight.
    pub(crate) fn raise(&mut self) {
        let rise = (self.first.saturating_mul(3) / 10).max(1);
        self.now = self.now.saturating_add(rise);
    }

    /// Takes a tenth of what was added.
    pub(crate) fn ease(&mut self) {
        let added = self.now.saturating_sub(self.first);
        self.now = self.now.saturating_sub(added / 10);
    }

    /// Takes all that was added.
    pub(crate) fn reset(&mut self) {
        self.now = self.first;
    }
}
