//! How high the first phase aims: above the best worth so far, and less high after rounds in vain.
//!
//! Amounts stop at the ends of their type: nothing rests on them.

/// How many rounds in vain lower the aim.
const PATIENCE: u32 = 20;

/// What a round has come to.
#[derive(Clone, Copy)]
pub(crate) enum Outcome {
    /// The list is the best one so far.
    Best,
    /// It isn't.
    Lower,
    /// Nor were those of many rounds before.
    Stuck,
}

/// The best worth so far, how far above it the aim is, and for how many rounds there was no better one.
#[derive(Clone, Copy)]
pub(crate) struct Aim {
    best: i64,
    above: i64,
    waited: u32,
}

impl Aim {
    pub(crate) fn new(worth: i64, above: i64) -> Aim {
        Aim {
            best: worth,
            above,
            waited: 0,
        }
    }

    /// How far below the aim a worth is, and at least 1.
    pub(crate) fn gap(self, worth: i64) -> i64 {
        self.best
            .saturating_add(self.above)
            .saturating_sub(worth)
            .max(1)
    }

    /// Takes in the worth of a round's list.
    pub(crate) fn take(&mut self, worth: i64) -> Outcome {
        if worth > self.best {
            if worth.saturating_sub(self.best) > self.above / 20 {
                self.waited = 0;
            }
            self.best = worth;
            return Outcome::Best;
        }
        if self.waited < PATIENCE {
            self.waited += 1;
            return Outcome::Lower;
        }
        self.waited = 0;
        self.above -= self.above / 5;
        Outcome::Stuck
    }
}
