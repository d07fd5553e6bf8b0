//! Numbers of a price list while the first phase moves them.
//!
//! Amounts stop at the ends of their type: nothing rests on them.
ghost use Rattle.std.specs.Prelude.{◌≤◌};

/// The greatest price.
const MOST: i64 = 1_000_000_000;

/// A pull is at most this.
const FARTHEST: i64 = 1_000_000_000_000_000;

/// A number, what it was in the best list so far, and where it is pulled: its slopes, smoothed over the rounds.
#[derive(Clone, Copy)]
pub(crate) struct Number {
    value: u32,
    best: u32,
    pull: i64,
    ghost value_small: { value ≤ 1_000_000_000 },
    ghost best_small: { best ≤ 1_000_000_000 },
}

impl Number {
    pub(crate) fn new(value: u32) -> Number
        requires { value ≤ 1_000_000_000 }
    {
        Number {
            value,
            best: value,
            pull: 0,
        }
    }

    pub(crate) fn value(self) -> i64 {
        i64::from(self.value)
    }

    pub(crate) fn best(self) -> u32
        ensures { result ≤ 1_000_000_000 }
    {
        self.best
    }

    /// Takes in the slope of the worth at the number. One that is 0 isn't pulled further down.
    pub(crate) fn pull(&mut self, slope: i64) {
        let pull = (self.pull - self.pull / 10).saturating_add(slope);
        self.pull = if self.value == 0 {
            pull.clamp(0, FARTHEST)
        } else {
            pull.clamp(-FARTHEST, FARTHEST)
        };
    }

    /// The square of the pull.
    pub(crate) fn square(self) -> i128 {
        i128::from(self.pull).saturating_mul(i128::from(self.pull))
    }

    /// Moves by the share of `way` that the pull has in a sum of squares.
    pub(crate) fn go(&mut self, way: i128, squares: i128) {
        if self.pull == 0 || squares <= 0 {
            return;
        }
        let step = way.saturating_mul(i128::from(self.pull)) / squares;
        let step = step.clamp(-i128::from(MOST), i128::from(MOST)) as i64;
        self.value = (i64::from(self.value) + step).clamp(0, MOST) as u32;
    }

    /// Its list is the best one so far.
    pub(crate) fn keep(&mut self) {
        self.best = self.value;
    }

    /// Goes back to the best list.
    pub(crate) fn take_back(&mut self) {
        self.value = self.best;
        self.pull = 0;
    }
}
