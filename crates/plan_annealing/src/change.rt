//! A change of a plan: runs that go, and runs that come.

use crate::run::{Run, Span};

/// One run goes for one that comes, and at an exchange a second one for another: no run where it is a move.
#[derive(Clone, Copy)]
pub(crate) struct Change {
    pub(crate) gone: Run,
    pub(crate) come: Run,
    pub(crate) second_gone: Run,
    pub(crate) second_come: Run,
}

impl Change {
    /// One intervention moves.
    #[inline]
    pub(crate) fn one(gone: Run, come: Run) -> Change {
        Change {
            gone,
            come,
            second_gone: Run::none(),
            second_come: Run::none(),
        }
    }

    /// The periods of what comes; at an exchange the run that starts there goes.
    #[inline]
    pub(crate) fn new_span(&self) -> Span {
        Span {
            from: self.come.from as usize,
            past: self.come.past.max(self.second_gone.past) as usize,
        }
    }

    /// The periods of what goes; at an exchange the run that starts there comes.
    #[inline]
    pub(crate) fn old_span(&self) -> Span {
        Span {
            from: self.gone.from as usize,
            past: self.gone.past.max(self.second_come.past) as usize,
        }
    }
}
