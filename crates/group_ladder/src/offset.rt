//! The offsets of the groups of a period, by intervention.
//!
//! Amounts stop at the ends of their type: nothing rests on them.

use crate::group::Group;
use crate::least::Least;
use crate::number::{Number, Pace, Scale, quotient};
use crate::units::MEAN;
use std::alloc::{AllocError, Global};

/// The offsets of an intervention, by group, and which group is least for it.
#[derive(Drop)]
pub(crate) struct Own {
    /// None where the intervention isn't in progress in the period, whatever its start is.
    pub(crate) numbers: Vec<Number>,
    pub(crate) least: usize,
}

impl Own {
    /// Zeros for so many groups.
    pub(crate) fn zeros(alloc: Global, groups: usize) -> Result<Own, AllocError> {
        Ok(Own {
            numbers: vec![in alloc; Number::new(0); groups]?,
            least: 0,
        })
    }

    /// Notes which offset is the least, and answers it: 0 where there is none.
    pub(crate) fn note_least(&mut self) -> i64 {
        let mut least = Least::none();
        for (group, number) in self.numbers.iter().enumerate() {
            least = least.or(number.value(), group);
        }
        self.least = least.place;
        if self.numbers.is_empty() {
            0
        } else {
            least.value
        }
    }
}

/// Adds the offsets of an intervention to the sums of the groups.
fn add_numbers(groups: &mut [Group], numbers: &[Number]) {
    for g in 0..groups.len().min(numbers.len()) {
        groups[g].sum = groups[g].sum.saturating_add(numbers[g].value());
    }
}

/// Computes the sums of the groups.
pub(crate) fn add_offsets(groups: &mut [Group], offsets: &[Own]) {
    for group in groups.iter_mut() {
        group.sum = 0;
    }
    for own in offsets {
        add_numbers(groups, own.numbers.as_slice());
    }
}

/// The greatest sum of a group.
pub(crate) fn greatest_sum(groups: &[Group]) -> i64 {
    let mut greatest = i64::MIN;
    for group in groups {
        greatest = greatest.max(group.sum);
    }
    greatest
}

/// Counts for how many interventions each group is the least, and answers how many have offsets.
fn count_leasts(groups: &mut [Group], offsets: &[Own]) -> i64 {
    for group in groups.iter_mut() {
        group.count = 0;
    }
    let mut count: i64 = 0;
    for own in offsets {
        if own.least < groups.len() && !own.numbers.is_empty() {
            groups[own.least].count = groups[own.least].count.saturating_add(1);
            count = count.saturating_add(1);
        }
    }
    count
}

/// Moves the offsets of an intervention: that of its least group up, against the share of those for which it is that.
fn step_numbers(
    numbers: &mut [Number],
    least: usize,
    groups: &[Group],
    count: i64,
    scale: Scale,
    pace: Pace,
) {
    for g in 0..numbers.len().min(groups.len()) {
        let here = if g == least { MEAN } else { 0 };
        let share = quotient(groups[g].count.saturating_mul(MEAN), count);
        let number = &mut numbers[g];
        number.pull(here.saturating_sub(share));
        number.go(scale, pace);
    }
}

/// Takes a share of the sum of each group off the offsets of an intervention.
fn take_share(numbers: &mut [Number], groups: &[Group], share: i64, shares: i64) {
    for g in 0..numbers.len().min(groups.len()) {
        let less = quotient(groups[g].sum.saturating_mul(share), shares);
        let number = &mut numbers[g];
        number.set(number.value().saturating_sub(less));
    }
}

/// The sum of the shares of those interventions that have offsets.
fn sum_shares(offsets: &[Own], shares: &[i64]) -> i64 {
    let mut sum: i64 = 0;
    for i in 0..offsets.len().min(shares.len()) {
        if !offsets[i].numbers.is_empty() {
            sum = sum.saturating_add(shares[i]);
        }
    }
    sum
}

/// Takes the sum of each group to 0, by the shares of the interventions.
fn balance(groups: &mut [Group], offsets: &mut [Own], shares: &[i64]) {
    add_offsets(groups, offsets);
    let sum = sum_shares(offsets, shares);
    for i in 0..offsets.len().min(shares.len()) {
        take_share(&mut offsets[i].numbers, groups, shares[i], sum);
    }
}

/// Moves all offsets. A share is the mean risk of an intervention, and `weight` what the weights of a group come to.
pub(crate) fn step_offsets(
    groups: &mut [Group],
    offsets: &mut [Own],
    shares: &[i64],
    weight: i64,
    pace: Pace,
) {
    let count = count_leasts(groups, offsets);
    for i in 0..offsets.len().min(shares.len()) {
        let scale = Scale {
            most: shares[i].saturating_mul(3).saturating_mul(weight) / 10,
            small: MEAN / 100,
        };
        let least = offsets[i].least;
        step_numbers(&mut offsets[i].numbers, least, groups, count, scale, pace);
    }
    balance(groups, offsets, shares);
}

/// Notes that these are the best offsets so far.
pub(crate) fn keep_offsets(offsets: &mut [Own]) {
    for own in offsets.iter_mut() {
        for number in own.numbers.iter_mut() {
            number.keep();
        }
    }
}
