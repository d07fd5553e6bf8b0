//! The tries of an annealing: first those that take what doesn't raise the score, then those under limits that are
//! drawn about a threshold, which falls from level to level.

use crate::state::State;
use drawn_words::Words;

/// In how many levels the threshold falls, and by what part of itself behind each: it ends near a hundredth of its
/// beginning.
const LEVELS: u64 = 200;

const FALL: i64 = 44;

/// What part of the tries comes before the levels, and the most of those.
const QUENCH: u64 = 50;

const MOST_QUENCH: u64 = 200_000;

/// 2^16 times minus the logarithm of (j + 1/2) / 64, by j, rounded.
const SHARES: [i64; 64] = [
    317983, 245984, 212507, 190455, 173985, 160834, 149886, 140508, 132305, 125016, 118457, 112495,
    107030, 101987, 97304, 92933, 88836, 84979, 81338, 77887, 74610, 71489, 68509, 65659, 62928,
    60307, 57786, 55358, 53017, 50757, 48572, 46458, 44410, 42424, 40496, 38624, 36803, 35032,
    33307, 31627, 29988, 28390, 26829, 25305, 23815, 22359, 20934, 19540, 18174, 16837, 15526,
    14241, 12981, 11744, 10530, 9339, 8169, 7019, 5889, 4778, 3686, 2611, 1554, 514,
];

/// A drawn limit about a threshold: a rise below it is taken.
#[inline]
fn limit_at(threshold: i64, words: &mut Words) -> i64 {
    let share = SHARES[words.draw(64) & 63];
    let limit = i128::from(threshold).wrapping_mul(i128::from(share)) >> 16;
    limit.wrapping_add(1).clamp(1, 4_611_686_018_427_387_904) as i64
}

/// Tries that take what doesn't raise the score.
fn quench(state: &mut State, words: &mut Words, tries: u64) {
    for _ in 0..tries {
        state.try_once(words, 1);
    }
}

/// Tries about one threshold.
fn level(state: &mut State, words: &mut Words, threshold: i64, tries: u64) {
    for _ in 0..tries {
        let limit = limit_at(threshold, words);
        state.try_once(words, limit);
    }
}

/// The share of one intervention in the score.
fn share_of(state: &State) -> i64 {
    let count = state.count().clamp(1, 1_048_576) as i64;
    state.score.saturating_abs() / count
}

/// All tries.
pub(crate) fn run_levels(state: &mut State, tries: u64, seed: u64) {
    let mut words = Words::new(seed);
    let first = (tries / QUENCH).min(MOST_QUENCH);
    quench(state, &mut words, first);
    let rest = tries.saturating_sub(first);
    let mut threshold = share_of(state);
    for k in 0..LEVELS {
        let more = u64::from(k < rest % LEVELS);
        level(
            state,
            &mut words,
            threshold,
            (rest / LEVELS).saturating_add(more),
        );
        threshold = threshold.wrapping_sub(threshold / FALL);
    }
}
