//! Numbers of a list while the rounds move them, and how far they move in a round.
//!
//! Amounts stop at the ends of their type: nothing rests on them, since the list that is found is tested.

use crate::units::PARTS;

/// What the greatest step of a number is, in parts of what its scale allows: 16 times it.
const FARTHEST: i64 = 16_777_216;

/// How far numbers move in a round, in parts of their scales, and what makes up for a slope and its size that were 0
/// before the first round.
#[derive(Clone, Copy)]
pub(crate) struct Pace {
    way: i64,
    slope: i64,
    size: i64,
    /// 0.9 and 0.99 to the number of the round.
    tenth: i64,
    hundredth: i64,
}

/// An amount by another one, or by 1 where that is less.
pub(crate) fn quotient(amount: i64, by: i64) -> i64 {
    amount / by.max(1)
}

/// What a number that was smoothed from 0 on has to be multiplied by.
fn made_up(rest: i64) -> i64 {
    quotient(PARTS * PARTS, PARTS.saturating_sub(rest))
}

impl Pace {
    /// That of the first round: 0.15.
    pub(crate) fn first() -> Pace {
        Pace {
            way: 157_286,
            slope: 0,
            size: 0,
            tenth: PARTS,
            hundredth: PARTS,
        }
        .noted()
    }

    /// The same way, one round later.
    fn noted(self) -> Pace {
        let tenth = self.tenth / 10 * 9;
        let hundredth = self.hundredth / 100 * 99;
        Pace {
            way: self.way,
            slope: made_up(tenth),
            size: made_up(hundredth),
            tenth,
            hundredth,
        }
    }

    /// That of the next round, of so many: over all rounds the way falls to 0.004 of what it was.
    pub(crate) fn next(self, rounds: u32) -> Pace {
        let rounds = i64::from(rounds).max(1);
        let less = quotient(self.way.saturating_mul(5522), rounds.saturating_mul(1000));
        Pace {
            way: self.way.saturating_sub(less),
            ..self
        }
        .noted()
    }
}

/// How far a number of a kind may move, and a size of slopes that is small for it.
#[derive(Clone, Copy)]
pub(crate) struct Scale {
    pub(crate) most: i64,
    pub(crate) small: i64,
}

/// A number, what it was in the best list so far, its slope, smoothed over the rounds, and the size of that.
#[derive(Clone, Copy)]
pub(crate) struct Number {
    value: i64,
    best: i64,
    slope: i64,
    size: i64,
}

impl Number {
    pub(crate) fn new(value: i64) -> Number {
        Number {
            value,
            best: value,
            slope: 0,
            size: 0,
        }
    }

    pub(crate) fn value(self) -> i64 {
        self.value
    }

    pub(crate) fn best(self) -> i64 {
        self.best
    }

    /// Its list is the best one so far.
    pub(crate) fn keep(&mut self) {
        self.best = self.value;
    }

    /// Another value.
    pub(crate) fn set(&mut self, value: i64) {
        self.value = value;
    }

    /// The value 0, and no slope.
    pub(crate) fn clear(&mut self) {
        self.value = 0;
        self.slope = 0;
    }

    /// Takes in the slope of the worth at the number.
    pub(crate) fn pull(&mut self, slope: i64) {
        let more = slope.saturating_sub(self.slope) / 10;
        self.slope = self.slope.saturating_add(more);
        let more = slope.saturating_abs().saturating_sub(self.size) / 100;
        self.size = self.size.saturating_add(more);
    }

    /// How far it moves: by the share that its slope has in the size of its slopes.
    fn step(self, scale: Scale, pace: Pace) -> i64 {
        let size = self.size.saturating_mul(pace.size) / PARTS;
        let share = quotient(
            self.slope.saturating_mul(pace.slope),
            size.saturating_add(scale.small),
        );
        let most = scale.most.saturating_mul(pace.way) / PARTS;
        most.saturating_mul(share.clamp(-FARTHEST, FARTHEST)) / PARTS
    }

    /// Moves.
    pub(crate) fn go(&mut self, scale: Scale, pace: Pace) {
        self.value = self.value.saturating_add(self.step(scale, pace));
    }

    /// Moves, but not below 0.
    pub(crate) fn go_above_zero(&mut self, scale: Scale, pace: Pace) {
        self.value = self.value.saturating_add(self.step(scale, pace)).max(0);
    }
}
