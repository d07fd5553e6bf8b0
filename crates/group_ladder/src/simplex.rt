//! The weights of a group, brought back to what they have to come to.
//!
//! Amounts stop at the ends of their type: nothing rests on them.

use crate::group::Place;

/// Less than any level.
const LOWEST: i64 = -2_305_843_009_213_693_952;

/// How much the weights of a group that are above a level come to, and how many there are.
fn sum_above(places: &[Place], group: usize, level: i64) -> (i64, i64) {
    let mut sum: i64 = 0;
    let mut count: i64 = 0;
    for place in places {
        if place.group == group && place.weight.value() > level {
            sum = sum.saturating_add(place.weight.value());
            count = count.saturating_add(1);
        }
    }
    (sum, count)
}

/// The level that takes the sum of all that stands above it to `total`, about.
fn level_for(places: &[Place], group: usize, total: i64) -> i64 {
    let mut level = LOWEST;
    for _ in 0..places.len() {
        let (sum, count) = sum_above(places, group, level);
        let next = sum.saturating_sub(total) / count.max(1);
        if next <= level {
            break;
        }
        level = next;
    }
    level
}

/// Takes a level off the weights of a group, as far as they reach, and answers what is left of `total`.
fn take_level(places: &mut [Place], group: usize, level: i64, total: i64) -> i64 {
    let mut left = total;
    for place in places.iter_mut() {
        if place.group == group {
            let weight = place.weight.value().saturating_sub(level).max(0);
            place.weight.set(weight);
            left = left.saturating_sub(weight);
        }
    }
    left
}

/// Adds to the greatest weight of a group.
fn add_to_greatest(places: &mut [Place], group: usize, more: i64) {
    let mut greatest = 0;
    let mut weight = -1;
    for (k, place) in places.iter().enumerate() {
        if place.group == group && place.weight.value() > weight {
            greatest = k;
            weight = place.weight.value();
        }
    }
    if let Some(place) = places.get_mut(greatest) {
        if place.group == group {
            place.weight.set(weight.saturating_add(more).max(0));
        }
    }
}

/// Makes the weights of a group come to `total` by the least change: none is below 0.
pub(crate) fn spread(places: &mut [Place], group: usize, total: i64) {
    let level = level_for(places, group, total);
    let left = take_level(places, group, level, total);
    add_to_greatest(places, group, left);
}
