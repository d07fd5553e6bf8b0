//! Runs, and the periods that they take.

/// The least 32 bits of a number.
pub(crate) fn low(number: usize) -> u32 {
    (number & 0xffff_ffff) as u32
}

/// The periods from `from` to `past - 1`.
#[derive(Clone, Copy)]
pub(crate) struct Span {
    pub(crate) from: usize,
    pub(crate) past: usize,
}

impl Span {
    #[inline]
    pub(crate) fn has(self, t: usize) -> bool {
        self.from <= t && t < self.past
    }

    /// Whether two spans share a period.
    #[inline]
    pub(crate) fn meets(self, other: Span) -> bool {
        self.from < other.past && other.from < self.past
    }
}

/// An intervention in progress from period `from` to `past - 1`, and where its own things stand. Where `past` is 0
/// there is no run.
#[derive(Clone, Copy)]
pub(crate) struct Run {
    pub(crate) work: u32,
    pub(crate) from: u32,
    pub(crate) past: u32,
    /// The number of the piece of its first period; those of the others follow.
    pub(crate) piece: u32,
    /// Its workloads: those of the intervention from this place on, and up to the other.
    pub(crate) first_cell: u32,
    pub(crate) past_cells: u32,
}

impl Run {
    /// No run.
    pub(crate) fn none() -> Run {
        Run {
            work: 0,
            from: 0,
            past: 0,
            piece: 0,
            first_cell: 0,
            past_cells: 0,
        }
    }

    /// The periods in which it is in progress.
    #[inline]
    pub(crate) fn span(self) -> Span {
        Span {
            from: self.from as usize,
            past: self.past as usize,
        }
    }

    /// Whether it is in progress in period `t`.
    #[inline]
    pub(crate) fn meets(self, t: usize) -> bool {
        self.span().has(t)
    }

    /// The number of its piece in period `t`.
    #[inline]
    pub(crate) fn piece_in(self, t: usize) -> usize {
        (self.piece as usize).wrapping_add(t.wrapping_sub(self.from as usize))
    }
}
