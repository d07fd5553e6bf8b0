//! The scenarios of each period are dealt into groups, before the first round.
//!
//! Amounts stop at the ends of their type: nothing rests on them.
ghost use Rattle.std.specs.Prelude.{◌≡◌, ◌*◌, ◌<◌, ◌≤◌, length, All, IfOk};
ghost use Rattle.group_ladder.specs.Search.{AreStarts, IsRange};

use crate::group::{Group, Place};
use crate::offset::Own;
use crate::place::period_place;
use crate::run_sums::note_run;
use crate::start::{Range, Start};
use crate::tail::Tail;
use instance_model::Instance;
use std::alloc::{AllocError, Global};

/// How many sums by group and scenario all periods have together at most.
const MANY_PULLS: usize = 4_194_304;

/// How many offsets all periods have together at most.
const MANY_OFFSETS: usize = 2_097_152;

/// A scenario in the order of falling sums.
#[derive(Clone, Copy, PartialEq, Eq, PartialOrd, Ord)]
struct Ranked {
    /// Less its sum.
    fall: i64,
    scenario: usize,
}

/// The scenarios in the order of falling sums.
fn order_of(alloc: Global, sums: &[i64]) -> Result<Vec<Ranked>, AllocError> {
    let mut order = Vec::with_capacity(alloc, sums.len())?;
    for (scenario, sum) in sums.iter().enumerate() {
        order.push(Ranked {
            fall: sum.saturating_neg(),
            scenario,
        })?;
    }
    order.sort_unstable();
    Ok(order)
}

/// Whether the sum behind so many greater ones is above the mean.
fn is_above_mean(order: &[Ranked], greater: usize) -> bool {
    let mut fall: i64 = 0;
    let mut count: i64 = 0;
    for place in order {
        fall = fall.saturating_add(place.fall);
        count = count.saturating_add(1);
    }
    match order.get(greater) {
        Some(place) => place.fall.saturating_mul(count) < fall,
        None => false,
    }
}

/// The group that gets the scenario at place `k`: from the first group to the last one, then back, and so on.
fn dealt(k: usize, groups: usize) -> usize
    requires { 0 < groups }
{
    let at = k % groups;
    if k / groups % 2 == 0 {
        at
    } else {
        groups - 1 - at
    }
}

/// The scenarios with the groups that they get.
fn places_of(alloc: Global, order: &[Ranked], groups: usize) -> Result<Vec<Place>, AllocError>
    requires { 0 < groups }
{
    let mut places = vec![in alloc; Place::new(0); order.len()]?;
    for (k, ranked) in order.iter().enumerate() {
        if let Some(place) = places.get_mut(ranked.scenario) {
            *place = Place::new(dealt(k, groups));
        }
    }
    Ok(places)
}

/// So many groups of a period that has `scenarios` of them.
fn groups_of(alloc: Global, count: usize, scenarios: usize) -> Result<Vec<Group>, AllocError> {
    let mut groups = Vec::with_capacity(alloc, count)?;
    for _ in 0..count {
        groups.push(Group::new(alloc, scenarios)?)?;
    }
    Ok(groups)
}

/// Offsets of 0 for so many groups of period `t`, for those interventions that can be in progress there.
fn offsets_of(
    alloc: Global,
    inst: &Instance,
    runs: &[bool],
    t: u32,
    groups: usize,
) -> Result<Vec<Own>, AllocError>
    requires each { length runs.now ≡ length inst.now.names * inst.now.periods }
    requires from { 1 ≤ t }
    requires to { t ≤ inst.now.periods }
{
    let mut offsets = Vec::with_capacity(alloc, inst.interventions() as usize)?;
    for i in 0..inst.interventions() {
        let count = if runs[period_place(inst, i, t)] {
            groups
        } else {
            0
        };
        offsets.push(Own::zeros(alloc, count)?)?;
    }
    Ok(offsets)
}

/// How many sums and offsets there may be yet.
#[derive(Clone, Copy)]
struct Room {
    pulls: usize,
    offsets: usize,
}

/// Takes so many off, if there are as many left.
fn take(left: &mut usize, count: usize) -> bool {
    if count > *left {
        return false;
    }
    *left -= count;
    true
}

/// The groups of period `t`, where they can raise the worth and there is room for them.
fn deal(
    alloc: Global,
    inst: &Instance,
    runs: &[bool],
    t: u32,
    sums: &[i64],
    weight: i64,
    room: &mut Room,
) -> Result<Option<Tail>, AllocError>
    requires each { length runs.now ≡ length inst.now.names * inst.now.periods }
    requires from { 1 ≤ t }
    requires to { t ≤ inst.now.periods }
{
    let scenarios = inst.scenarios(t);
    let greater = (scenarios - inst.rank(t)) as usize;
    let groups = greater + 1;
    let order = order_of(alloc, sums)?;
    if weight <= 0 || !is_above_mean(&order, greater) {
        return Ok(None);
    }
    let pulls = groups.saturating_mul(scenarios as usize);
    if !take(&mut room.pulls, pulls) {
        return Ok(None);
    }
    let numbers = groups.saturating_mul(inst.interventions() as usize);
    let offsets = if greater > 0 && take(&mut room.offsets, numbers) {
        offsets_of(alloc, inst, runs, t, groups)?
    } else {
        Vec::new(alloc)
    };
    Ok(Some(Tail::new(
        places_of(alloc, &order, groups)?,
        groups_of(alloc, groups, scenarios as usize)?,
        Vec::with_capacity(alloc, scenarios as usize)?,
        offsets,
        weight,
    )))
}

/// In which periods each intervention can be in progress, by intervention, then period.
fn all_runs(
    alloc: Global,
    inst: &Instance,
    starts: &[Start],
    ranges: &[Range],
) -> Result<Vec<bool>, AllocError>
    requires starts { AreStarts inst.now starts.now }
    requires each { length ranges.now ≡ length inst.now.names }
    requires ranges { All (IsRange (length starts.now)) ranges.now }
    ensures { IfOk result (λ runs. length runs.items ≡ length inst.now.names * inst.now.periods) }
{
    let count = inst.interventions() as usize * inst.periods() as usize;
    let mut runs = vec![in alloc; false; count]?;
    for i in 0..inst.interventions() {
        let range = ranges[i as usize];
        for k in range.from..range.past {
            note_run(inst, i, &starts[k], &mut runs);
        }
    }
    Ok(runs)
}

/// The groups of all periods. The weights of a group come to `weight`.
pub(crate) fn all_tails(
    alloc: Global,
    inst: &Instance,
    starts: &[Start],
    ranges: &[Range],
    sums: &[Vec<i64>],
    weight: i64,
) -> Result<Vec<Option<Tail>>, AllocError>
    requires starts { AreStarts inst.now starts.now }
    requires each { length ranges.now ≡ length inst.now.names }
    requires ranges { All (IsRange (length starts.now)) ranges.now }
    requires sums { length sums.now ≡ inst.now.periods }
    ensures { IfOk result (λ tails. length tails.items ≡ inst.now.periods) }
{
    let runs = all_runs(alloc, inst, starts, ranges)?;
    let mut room = Room {
        pulls: MANY_PULLS,
        offsets: MANY_OFFSETS,
    };
    let mut tails = Vec::with_capacity(alloc, inst.periods() as usize)?;
    for t in 1..inst.periods() + 1 {
        let of_period = sums[t as usize - 1].as_slice();
        tails.push(deal(alloc, inst, &runs, t, of_period, weight, &mut room)?)?;
    }
    Ok(tails)
}
