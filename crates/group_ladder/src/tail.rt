//! The groups of a period with their weights and offsets, while the rounds move them.
//!
//! Amounts stop at the ends of their type: nothing rests on them.

use crate::group::{
    Group, Part, Place, add_row, clear_pulls, keep_places, least_group, push_parts, smooth_pulls,
};
use crate::least::Least;
use crate::number::{Number, Pace, Scale, quotient};
use crate::offset::{Own, add_offsets, greatest_sum, keep_offsets, step_offsets};
use crate::scales::Scales;
use crate::shift::{shift_all_spare, shift_light};
use crate::simplex::spread;
use std::alloc::AllocError;

/// The groups of a period.
#[derive(Drop)]
pub(crate) struct Tail {
    /// By scenario.
    pub(crate) places: Vec<Place>,
    pub(crate) groups: Vec<Group>,
    /// The scenarios that count, in the order of their groups.
    parts: Vec<Part>,
    /// By intervention; none where they would be too many.
    pub(crate) offsets: Vec<Own>,
}

/// The mean pull of the scenarios that count in a group.
fn mean_pull(places: &[Place], pulls: &[i64], group: usize) -> i64 {
    let mut sum: i64 = 0;
    let mut count: i64 = 0;
    for k in 0..places.len().min(pulls.len()) {
        if places[k].counts_in(group) {
            sum = sum.saturating_add(pulls[k]);
            count = count.saturating_add(1);
        }
    }
    quotient(sum, count)
}

/// Moves the weights of a group.
fn step_group(places: &mut [Place], pulls: &[i64], group: usize, scales: Scales, pace: Pace) {
    let mean = mean_pull(places, pulls, group);
    let scale = scales.weights();
    for k in 0..places.len().min(pulls.len()) {
        let place = &mut places[k];
        if place.group == group {
            place.weight.pull(pulls[k].saturating_sub(mean));
            place.weight.go(scale, pace);
        }
    }
    spread(places, group, scales.weight);
}

/// Moves the weights of all groups.
fn step_groups(places: &mut [Place], groups: &[Group], scales: Scales, pace: Pace) {
    for (g, group) in groups.iter().enumerate() {
        step_group(places, group.pulls.as_slice(), g, scales, pace);
    }
}

impl Tail {
    /// The groups of these places, with equal weights, and with these offsets.
    pub(crate) fn new(
        places: Vec<Place>,
        groups: Vec<Group>,
        parts: Vec<Part>,
        offsets: Vec<Own>,
        weight: i64,
    ) -> Tail {
        let mut places = places;
        for g in 0..groups.len() {
            spread(&mut places, g, weight);
        }
        Tail {
            places,
            groups,
            parts,
            offsets,
        }
    }

    /// Notes which scenarios count, and forgets the pulls.
    pub(crate) fn begin(&mut self) -> Result<(), AllocError> {
        clear_pulls(&mut self.groups);
        self.parts.clear();
        for g in 0..self.groups.len() {
            push_parts(&self.places, g, &mut self.parts)?;
        }
        Ok(())
    }

    /// What the offsets cost.
    pub(crate) fn cost(&mut self) -> i64 {
        if self.offsets.is_empty() {
            return 0;
        }
        add_offsets(&mut self.groups, &self.offsets);
        greatest_sum(&self.groups)
    }

    /// The least offset of intervention `i`, which is noted as its least group.
    pub(crate) fn least_offset(&mut self, i: u32) -> i64 {
        match self.offsets.get_mut(i as usize) {
            Some(own) => own.note_least(),
            None => 0,
        }
    }

    /// The offsets of intervention `i`.
    fn offsets_of(&self, i: u32) -> &[Number] {
        match self.offsets.get(i as usize) {
            Some(own) => own.numbers.as_slice(),
            None => &[],
        }
    }

    /// The least group of a row of risks of intervention `i`.
    pub(crate) fn least(&self, i: u32, row: &[i32]) -> Least {
        least_group(&self.parts, self.offsets_of(i), row)
    }

    /// Notes that intervention `i` is in progress with a row of risks.
    pub(crate) fn note(&mut self, i: u32, row: &[i32]) {
        let group = self.least(i, row).place;
        if group < self.groups.len() {
            add_row(&mut self.groups[group].pulls, row);
        }
        if let Some(own) = self.offsets.get_mut(i as usize) {
            own.least = group;
        }
    }

    /// Smooths the pulls, and lets scenarios go to other groups where this is asked for.
    pub(crate) fn shift(&mut self, light: bool, spare: bool, scales: Scales) {
        smooth_pulls(&mut self.groups);
        if light {
            shift_light(&mut self.places, &mut self.groups, scales.weight / 1000);
        }
        if spare {
            shift_all_spare(&mut self.places, &mut self.groups, scales.weight);
        }
    }

    /// Moves the weights and the offsets.
    pub(crate) fn step(&mut self, shares: &[i64], scales: Scales, pace: Pace) {
        step_groups(&mut self.places, &self.groups, scales, pace);
        step_offsets(
            &mut self.groups,
            &mut self.offsets,
            shares,
            scales.weight,
            pace,
        );
    }

    /// Notes that these are the best numbers so far.
    pub(crate) fn keep(&mut self) {
        keep_places(&mut self.places);
        keep_offsets(&mut self.offsets);
    }
}
