//! The best groups of a period, as those of a refined price list.

use crate::group::Place;
use crate::number::{Number, quotient};
use crate::offset::Own;
use crate::tail::Tail;
use crate::units::Units;
use refined_prices::{Group, GroupTail, Groups, Member, Offset};
use std::alloc::{AllocError, Global};

/// What the weights of a group of a list come to.
const WHOLE: u32 = 1000;

/// A part of a sum in thousandths.
fn thousandths(part: i64, sum: i64) -> u32 {
    let whole = i64::from(WHOLE);
    quotient(part.saturating_mul(whole), sum).clamp(0, whole) as u32
}

/// What the best weights of a group come to.
fn sum_of(places: &[Place], group: usize) -> i64 {
    let mut sum: i64 = 0;
    for place in places {
        sum = sum.saturating_add(place.best_in(group));
    }
    sum
}

/// Rounds the best weights of a group so that they come to 1000.
fn round_group(places: &[Place], group: usize, weights: &mut [u32]) {
    let sum = sum_of(places, group);
    let mut before: i64 = 0;
    for k in 0..places.len().min(weights.len()) {
        let weight = places[k].best_in(group);
        if weight > 0 {
            let more = before.saturating_add(weight);
            weights[k] = thousandths(more, sum).saturating_sub(thousandths(before, sum));
            before = more;
        }
    }
}

/// The best weights in thousandths, by scenario.
fn weights_of(alloc: Global, tail: &Tail) -> Result<Vec<u32>, AllocError> {
    let mut weights = vec![in alloc; 0; tail.places.len()]?;
    for group in 0..tail.groups.len() {
        round_group(&tail.places, group, &mut weights);
    }
    Ok(weights)
}

/// Whether a group isn't one of these.
fn is_new(groups: &[usize], group: usize) -> bool {
    groups.iter().all(|other| *other != group)
}

/// The groups in the order of their first scenarios.
fn order_of(alloc: Global, places: &[Place], weights: &[u32]) -> Result<Vec<usize>, AllocError> {
    let mut order = Vec::new(alloc);
    for k in 0..places.len().min(weights.len()) {
        let group = places[k].best_group;
        if weights[k] > 0 && is_new(&order, group) {
            order.push(group)?;
        }
    }
    Ok(order)
}

/// The scenarios of a group with their weights.
fn members_of(
    alloc: Global,
    places: &[Place],
    weights: &[u32],
    group: usize,
) -> Result<Vec<Member>, AllocError> {
    let mut members = Vec::new(alloc);
    let mut scenario: u32 = 0;
    for k in 0..places.len().min(weights.len()) {
        scenario = scenario.saturating_add(1);
        if places[k].best_group == group && weights[k] > 0 {
            members.push(Member {
                scenario,
                weight: weights[k],
            })?;
        }
    }
    Ok(members)
}

/// The least best value of some numbers.
fn least_best(numbers: &[Number]) -> i64 {
    let mut least = i64::MAX;
    for number in numbers {
        least = least.min(number.best());
    }
    least
}

/// The offset of a group: what it is above the least one.
fn offset_of(units: Units, weight: i64, numbers: &[Number], least: i64, group: usize) -> u32 {
    match numbers.get(group) {
        Some(number) => units.offset(number.best().saturating_sub(least), weight),
        None => 0,
    }
}

/// Puts the offsets of an intervention that aren't 0 behind others.
fn push_offsets(
    units: Units,
    weight: i64,
    own: &Own,
    order: &[usize],
    period: u32,
    intervention: u32,
    offsets: &mut Vec<Offset>,
) -> Result<(), AllocError> {
    let least = least_best(&own.numbers);
    let mut group: u32 = 0;
    for from in order {
        let value = offset_of(units, weight, &own.numbers, least, *from);
        if value > 0 {
            offsets.push(Offset {
                period,
                intervention,
                group,
                value,
            })?;
        }
        group = group.saturating_add(1);
    }
    Ok(())
}

/// The groups of a period; the offsets of these that aren't 0 are put behind others.
pub(crate) fn push_tail(
    alloc: Global,
    units: Units,
    weight: i64,
    tail: &Tail,
    period: u32,
    offsets: &mut Vec<Offset>,
) -> Result<GroupTail, AllocError> {
    let weights = weights_of(alloc, tail)?;
    let order = order_of(alloc, &tail.places, &weights)?;
    let mut groups = Vec::with_capacity(alloc, order.len())?;
    for group in order.iter() {
        groups.push(Group::from_vec(members_of(alloc, &tail.places, &weights, *group)?))?;
    }
    let mut intervention: u32 = 0;
    for own in tail.offsets.iter() {
        push_offsets(units, weight, own, &order, period, intervention, offsets)?;
        intervention = intervention.saturating_add(1);
    }
    Ok(GroupTail {
        weight: WHOLE,
        groups: Groups::from_vec(groups),
    })
}
