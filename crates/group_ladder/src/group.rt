//! Groups of the scenarios of a period, the scenarios with their weights, and the weighted sums of rows of risks.
//!
//! Amounts stop at the ends of their type: nothing rests on them.

use crate::least::Least;
use crate::number::Number;
use std::alloc::{AllocError, Global};

/// A scenario of a period: its group, its weight there, and the sum of its risks, smoothed over the rounds.
#[derive(Clone, Copy)]
pub(crate) struct Place {
    pub(crate) group: usize,
    pub(crate) best_group: usize,
    pub(crate) weight: Number,
    pub(crate) total: i64,
}

impl Place {
    pub(crate) fn new(group: usize) -> Place {
        Place {
            group,
            best_group: group,
            weight: Number::new(0),
            total: 0,
        }
    }

    /// Whether the scenario counts in a group.
    pub(crate) fn counts_in(self, group: usize) -> bool {
        self.group == group && self.weight.value() > 0
    }

    /// The weight that it has in a group in the best list so far.
    pub(crate) fn best_in(self, group: usize) -> i64 {
        if self.best_group == group {
            self.weight.best().max(0)
        } else {
            0
        }
    }

    /// Moves to another group, where it doesn't count yet.
    pub(crate) fn shift(&mut self, group: usize) {
        self.group = group;
        self.weight.clear();
    }
}

/// Notes that these are the best groups and weights so far.
pub(crate) fn keep_places(places: &mut [Place]) {
    for place in places.iter_mut() {
        place.best_group = place.group;
        place.weight.keep();
    }
}

/// What is known of a group.
#[derive(Drop)]
pub(crate) struct Group {
    /// By scenario, the sum of the risks of those interventions whose least group it is.
    pub(crate) pulls: Vec<i64>,
    /// The same, smoothed over the rounds.
    pub(crate) means: Vec<i64>,
    /// The greatest mean of a scenario that counts in it.
    pub(crate) top: i64,
    /// The weighted sum of its scenarios.
    pub(crate) value: i64,
    /// For how many interventions it is the least.
    pub(crate) count: i64,
    /// The sum of all offsets.
    pub(crate) sum: i64,
}

impl Group {
    pub(crate) fn new(alloc: Global, scenarios: usize) -> Result<Group, AllocError> {
        Ok(Group {
            pulls: vec![in alloc; 0; scenarios]?,
            means: vec![in alloc; 0; scenarios]?,
            top: 0,
            value: 0,
            count: 0,
            sum: 0,
        })
    }

    /// The mean of a scenario, less the greatest of those that count.
    pub(crate) fn gap(&self, scenario: usize) -> i64 {
        match self.means.get(scenario) {
            Some(mean) => mean.saturating_sub(self.top),
            None => i64::MIN,
        }
    }
}

/// Adds a row of risks to sums by scenario.
pub(crate) fn add_row(sums: &mut [i64], row: &[i32]) {
    for k in 0..sums.len().min(row.len()) {
        sums[k] = sums[k].saturating_add(i64::from(row[k]));
    }
}

/// Moves each mean by a tenth of the way to its number.
fn smooth(means: &mut [i64], numbers: &[i64]) {
    for k in 0..means.len().min(numbers.len()) {
        let more = numbers[k].saturating_sub(means[k]) / 10;
        means[k] = means[k].saturating_add(more);
    }
}

/// Forgets the pulls.
pub(crate) fn clear_pulls(groups: &mut [Group]) {
    for group in groups.iter_mut() {
        group.pulls.fill(0);
    }
}

/// Takes the pulls into the means.
pub(crate) fn smooth_pulls(groups: &mut [Group]) {
    for group in groups.iter_mut() {
        smooth(&mut group.means, &group.pulls);
    }
}

/// A scenario that counts in a group, and its weight.
#[derive(Clone, Copy)]
pub(crate) struct Part {
    group: usize,
    scenario: usize,
    weight: i64,
}

/// Puts the scenarios that count in a group behind others.
pub(crate) fn push_parts(
    places: &[Place],
    group: usize,
    parts: &mut Vec<Part>,
) -> Result<(), AllocError> {
    for (scenario, place) in places.iter().enumerate() {
        if place.counts_in(group) {
            parts.push(Part {
                group,
                scenario,
                weight: place.weight.value(),
            })?;
        }
    }
    Ok(())
}

/// A risk of a row: 0 where there is none.
fn risk_at(row: &[i32], k: usize) -> i64 {
    match row.get(k) {
        Some(risk) => i64::from(*risk),
        None => 0,
    }
}

/// A number of a list: 0 where there is none.
pub(crate) fn value_at(numbers: &[Number], k: usize) -> i64 {
    match numbers.get(k) {
        Some(number) => number.value(),
        None => 0,
    }
}

/// The least group of a row of risks, under the offsets of the groups: of the weighted sum and the offset. The parts
/// stand in the order of their groups. (A weight is at most 2^20 and a risk 2^30, so no sum wraps.)
pub(crate) fn least_group(parts: &[Part], offsets: &[Number], row: &[i32]) -> Least {
    let mut least = Least::none();
    let mut group = 0;
    let mut sum = value_at(offsets, 0);
    for part in parts {
        if part.group != group {
            least = least.or(sum, group);
            group = part.group;
            sum = value_at(offsets, group);
        }
        sum = sum.wrapping_add(part.weight.wrapping_mul(risk_at(row, part.scenario)));
    }
    least.or(sum, group)
}
