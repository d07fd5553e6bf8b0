//! Scenarios go to other groups, where they count for more.
//!
//! Amounts stop at the ends of their type: nothing rests on them.

use crate::group::{Group, Place};
use crate::least::Least;
use crate::number::quotient;

/// The greatest mean of a scenario that counts in a group.
fn top_of(places: &[Place], means: &[i64], group: usize) -> i64 {
    let mut top = 0;
    for k in 0..places.len().min(means.len()) {
        if places[k].counts_in(group) {
            top = top.max(means[k]);
        }
    }
    top
}

/// Notes the greatest mean of each group.
fn note_tops(places: &[Place], groups: &mut [Group]) {
    for g in 0..groups.len() {
        groups[g].top = top_of(places, groups[g].means.as_slice(), g);
    }
}

/// The group where the mean of a scenario is farthest above the greatest of those that count there; its own if none is
/// better.
fn farthest(groups: &[Group], own: usize, scenario: usize) -> usize {
    let mut best = own;
    let mut gap = match groups.get(own) {
        Some(group) => group.gap(scenario),
        None => i64::MIN,
    };
    for (g, group) in groups.iter().enumerate() {
        if group.gap(scenario) > gap {
            best = g;
            gap = group.gap(scenario);
        }
    }
    best
}

/// Scenarios of at most this weight go to the groups where they are farthest above the others.
pub(crate) fn shift_light(places: &mut [Place], groups: &mut [Group], light: i64) {
    note_tops(places, groups);
    for k in 0..places.len() {
        if places[k].weight.value() <= light {
            let group = farthest(groups, places[k].group, k);
            if group != places[k].group {
                places[k].shift(group);
            }
        }
    }
}

/// The sum of the means of a scenario over the groups.
fn total_of(groups: &[Group], scenario: usize) -> i64 {
    let mut total: i64 = 0;
    for group in groups {
        if scenario < group.means.len() {
            total = total.saturating_add(group.means[scenario]);
        }
    }
    total
}

/// Notes the sum of the means of each scenario.
fn note_totals(places: &mut [Place], groups: &[Group]) {
    for k in 0..places.len() {
        places[k].total = total_of(groups, k);
    }
}

/// Notes what a group comes to, and the greatest sum of a scenario that counts in it.
fn note_value(places: &[Place], g: usize, group: &mut Group, weight: i64) {
    let mut value: i64 = 0;
    let mut top = 0;
    for place in places {
        if place.counts_in(g) {
            value = value.saturating_add(place.weight.value().saturating_mul(place.total));
            top = top.max(place.total);
        }
    }
    group.value = quotient(value, weight);
    group.top = top;
}

fn note_values(places: &[Place], groups: &mut [Group], weight: i64) {
    for g in 0..groups.len() {
        note_value(places, g, &mut groups[g], weight);
    }
}

/// The group that comes to the least.
fn least_value(groups: &[Group]) -> Least {
    let mut least = Least::none();
    for (g, group) in groups.iter().enumerate() {
        least = least.or(group.value, g);
    }
    least
}

/// What the group of a scenario would come to without it.
fn value_without(place: Place, groups: &[Group], weight: i64) -> i64 {
    if place.group >= groups.len() {
        return 0;
    }
    let all = groups[place.group].value.saturating_mul(weight);
    let own = place.weight.value().saturating_mul(place.total);
    quotient(
        all.saturating_sub(own),
        weight.saturating_sub(place.weight.value()),
    )
}

/// A scenario goes to the group that comes to the least, if it is above all that count there, and its own one comes to
/// a tenth more even without it.
fn shift_spare(place: &mut Place, groups: &mut [Group], weight: i64) {
    let least = least_value(groups);
    let without = value_without(*place, groups, weight);
    let enough = least.value.saturating_add(least.value / 10);
    if least.place >= groups.len() || place.group >= groups.len() {
        return;
    }
    if least.place == place.group || place.weight.value() >= weight {
        return;
    }
    if without >= enough && place.total > groups[least.place].top {
        groups[place.group].value = without;
        place.shift(least.place);
    }
}

/// Scenarios that their groups can spare go to the group that comes to the least.
pub(crate) fn shift_all_spare(places: &mut [Place], groups: &mut [Group], weight: i64) {
    note_totals(places, groups);
    note_values(places, groups, weight);
    for place in places.iter_mut() {
        shift_spare(place, groups, weight);
    }
}
