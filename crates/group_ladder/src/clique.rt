//! Cliques: interventions of which any two exclude each other in a season, with prices by period, while the rounds move
//! these.
//!
//! Amounts stop at the ends of their type: nothing rests on them.
ghost use Rattle.std.specs.Prelude.{◌≡◌, ℕ, ◌*◌, ◌<◌, ◌≤◌, [], length, IfOk, IfSome, OnOk, slice_index_or};
ghost use Rattle.season_exclusion.specs.Broken.{naming_of};
ghost use Rattle.group_ladder.specs.Search.{AreNumbers, IsSet, AreSets, AreSpots};

use crate::number::{Number, Pace};
use crate::place::period_place;
use crate::scales::Scales;
use crate::units::MEAN;
use instance_model::Instance;
use season_exclusion::{Named, named_lists};
use std::alloc::{AllocError, Global};

/// How many spots there are at most.
const MANY: usize = 262_144;

/// How many members all spots have together at most.
const MANY_MEMBERS: usize = 2_097_152;

/// A mark that no count reaches.
const MEMBER: usize = usize::MAX;

/// Interventions of which any two exclude each other in a season.
#[derive(Drop)]
pub(crate) struct Set {
    pub(crate) season: u32,
    pub(crate) members: Vec<u32>,
}

/// A set of interventions in a period of its season.
#[derive(Clone, Copy)]
pub(crate) struct Spot {
    pub(crate) set: usize,
    pub(crate) period: u32,
}

/// The other intervention that exclusion `e` names beside `i`, where it is for this season.
fn other_of(inst: &Instance, e: u32, i: u32, season: u32) -> Option<u32>
    requires { e < length inst.now.exclusion_names }
    ensures { IfSome result (λ j. j < length inst.now.names) }
{
    let exclusion = inst.exclusion(e);
    if exclusion.season != season {
        return None;
    }
    if exclusion.first == i {
        Some(exclusion.second)
    } else {
        Some(exclusion.first)
    }
}

/// Marks those interventions that `i` excludes and that have `size` marks with one more.
fn mark_others(
    inst: &Instance,
    named: &Named,
    i: u32,
    season: u32,
    marks: &mut [usize],
    size: usize,
)
    requires named { named.now ≡ naming_of inst.now i }
    requires marks { length marks.old ≡ length inst.now.names }
{
    for e in named.as_slice() {
        if let Some(other) = other_of(inst, *e, i, season) {
            if other != i && marks[other as usize] == size {
                marks[other as usize] = size.saturating_add(1);
            }
        }
    }
}

/// Puts intervention `i` to the members, and marks those that it excludes and that all others exclude.
fn add_member(
    inst: &Instance,
    named: &[Named],
    season: u32,
    i: u32,
    members: &mut Vec<u32>,
    marks: &mut [usize],
) -> Result<(), AllocError>
    requires number { i < length inst.now.names }
    requires each { length named.now ≡ length inst.now.names }
    requires named { (i : ℕ) → i < length inst.now.names → slice_index_or named.now i [] ≡ naming_of inst.now i }
    requires members { AreNumbers inst.now members.old.items }
    requires marks { length marks.old ≡ length inst.now.names }
    ensures { OnOk result (AreNumbers inst.now members.new.items) }
{
    let size = members.len();
    members.push(i)?;
    mark_others(inst, &named[i as usize], i, season, marks, size);
    Ok(())
}

/// The set of the two interventions of exclusion `e` and, in ascending order, of each further one that all in it
/// exclude. The marks are for its use.
fn grow(
    alloc: Global,
    inst: &Instance,
    named: &[Named],
    e: u32,
    marks: &mut [usize],
) -> Result<Set, AllocError>
    requires number { e < length inst.now.exclusion_names }
    requires each { length named.now ≡ length inst.now.names }
    requires named { (i : ℕ) → i < length inst.now.names → slice_index_or named.now i [] ≡ naming_of inst.now i }
    requires marks { length marks.old ≡ length inst.now.names }
    ensures { IfOk result (IsSet inst.now) }
{
    marks.fill(0);
    let exclusion = inst.exclusion(e);
    let season = exclusion.season;
    let mut members = Vec::new(alloc);
    add_member(inst, named, season, exclusion.first, &mut members, marks)?;
    add_member(inst, named, season, exclusion.second, &mut members, marks)?;
    for j in 0..inst.interventions() {
        if marks[j as usize] == members.len() {
            add_member(inst, named, season, j, &mut members, marks)?;
        }
    }
    Ok(Set { season, members })
}

/// Covers the exclusions between intervention `i` and others that are marked as members.
fn cover_by(
    inst: &Instance,
    named: &Named,
    i: u32,
    season: u32,
    marks: &[usize],
    covered: &mut [bool],
)
    requires named { named.now ≡ naming_of inst.now i }
    requires marks { length marks.now ≡ length inst.now.names }
    requires covered { length covered.old ≡ length inst.now.exclusion_names }
{
    for e in named.as_slice() {
        if let Some(other) = other_of(inst, *e, i, season) {
            if marks[other as usize] == MEMBER {
                covered[*e as usize] = true;
            }
        }
    }
}

/// Covers the exclusions between any two members of a set. The marks are for its use.
fn cover(inst: &Instance, named: &[Named], set: &Set, marks: &mut [usize], covered: &mut [bool])
    requires each { length named.now ≡ length inst.now.names }
    requires named { (i : ℕ) → i < length inst.now.names → slice_index_or named.now i [] ≡ naming_of inst.now i }
    requires set { IsSet inst.now set.now }
    requires marks { length marks.old ≡ length inst.now.names }
    requires covered { length covered.old ≡ length inst.now.exclusion_names }
{
    for i in set.members.as_slice() {
        marks[*i as usize] = MEMBER;
    }
    for i in set.members.as_slice() {
        cover_by(inst, &named[*i as usize], *i, set.season, marks, covered);
    }
}

/// Whether exclusion `e` names two interventions, and is in no set yet.
fn is_open(inst: &Instance, e: u32, covered: &[bool]) -> bool
    requires number { e < length inst.now.exclusion_names }
    requires covered { length covered.now ≡ length inst.now.exclusion_names }
{
    let exclusion = inst.exclusion(e);
    exclusion.first != exclusion.second && !covered[e as usize]
}

/// Puts the set of exclusion `e` behind others, and covers the exclusions in it. The marks are for its use.
fn push_set(
    alloc: Global,
    inst: &Instance,
    named: &[Named],
    e: u32,
    marks: &mut [usize],
    covered: &mut [bool],
    sets: &mut Vec<Set>,
) -> Result<(), AllocError>
    requires number { e < length inst.now.exclusion_names }
    requires each { length named.now ≡ length inst.now.names }
    requires named { (i : ℕ) → i < length inst.now.names → slice_index_or named.now i [] ≡ naming_of inst.now i }
    requires marks { length marks.old ≡ length inst.now.names }
    requires covered { length covered.old ≡ length inst.now.exclusion_names }
    requires sets { AreSets inst.now sets.old.items }
    ensures { OnOk result (AreSets inst.now sets.new.items) }
{
    let set = grow(alloc, inst, named, e, marks)?;
    cover(inst, named, &set, marks, covered);
    sets.push(set)?;
    Ok(())
}

/// Sets that have the two interventions of each exclusion that names two, in its season.
pub(crate) fn all_sets(alloc: Global, inst: &Instance) -> Result<Vec<Set>, AllocError>
    ensures { IfOk result (λ sets. AreSets inst.now sets.items) }
{
    let named = named_lists(alloc, inst)?;
    let mut marks: Vec<usize> = vec![in alloc; 0; inst.interventions() as usize]?;
    let mut covered = vec![in alloc; false; inst.exclusions() as usize]?;
    let mut sets = Vec::new(alloc);
    for e in 0..inst.exclusions() {
        if is_open(inst, e, &covered) {
            push_set(alloc, inst, &named, e, &mut marks, &mut covered, &mut sets)?;
        }
    }
    Ok(sets)
}

// ---- spots

/// Those of period `t`, behind others, as far as their members aren't more than `left`; how many more there may be.
fn push_spots(
    inst: &Instance,
    sets: &[Set],
    t: u32,
    left: usize,
    spots: &mut Vec<Spot>,
) -> Result<usize, AllocError>
    requires sets { AreSets inst.now sets.now }
    requires from { 1 ≤ t }
    requires to { t ≤ inst.now.periods }
    requires spots { AreSpots inst.now (length sets.now) spots.old.items }
    ensures { OnOk result (AreSpots inst.now (length sets.now) spots.new.items) }
{
    let mut left = left;
    for (k, set) in sets.iter().enumerate() {
        if inst.in_season(set.season, t) && spots.len() < MANY && set.members.len() <= left {
            left -= set.members.len();
            spots.push(Spot { set: k, period: t })?;
        }
    }
    Ok(left)
}

/// All sets in the periods of their seasons, by period, as far as they aren't too many.
pub(crate) fn all_spots(
    alloc: Global,
    inst: &Instance,
    sets: &[Set],
) -> Result<Vec<Spot>, AllocError>
    requires { AreSets inst.now sets.now }
    ensures { IfOk result (λ spots. AreSpots inst.now (length sets.now) spots.items) }
{
    let mut spots = Vec::new(alloc);
    let mut left = MANY_MEMBERS;
    for t in 1..inst.periods() + 1 {
        left = push_spots(inst, sets, t, left, &mut spots)?;
    }
    Ok(spots)
}

/// How many members the sets of all spots have together.
pub(crate) fn member_count(sets: &[Set], spots: &[Spot]) -> u64 {
    let mut count: u64 = 0;
    for spot in spots {
        if let Some(set) = sets.get(spot.set) {
            count = count.saturating_add(set.members.len() as u64);
        }
    }
    count
}

/// What the prices add whatever the starts are.
pub(crate) fn fixed_of_charges(charges: &[Number]) -> i64 {
    let mut sum: i64 = 0;
    for charge in charges {
        sum = sum.saturating_sub(charge.value());
    }
    sum
}

/// Adds a price to what members pay in period `t`.
fn add_charge(inst: &Instance, dues: &mut [i64], members: &[u32], t: u32, price: i64)
    requires each { length dues.old ≡ length inst.now.names * inst.now.periods }
    requires members { AreNumbers inst.now members.now }
    requires from { 1 ≤ t }
    requires to { t ≤ inst.now.periods }
{
    for i in members {
        let due = &mut dues[period_place(inst, *i, t)];
        *due = due.saturating_add(price);
    }
}

/// Adds the prices to what interventions pay, by intervention, then period.
pub(crate) fn add_charges(
    inst: &Instance,
    dues: &mut [i64],
    sets: &[Set],
    spots: &[Spot],
    charges: &[Number],
)
    requires dues { length dues.old ≡ length inst.now.names * inst.now.periods }
    requires sets { AreSets inst.now sets.now }
    requires spots { AreSpots inst.now (length sets.now) spots.now }
    requires charges { length charges.now ≡ length spots.now }
{
    for (k, spot) in spots.iter().enumerate() {
        let price = charges[k].value();
        if price > 0 {
            add_charge(
                inst,
                dues,
                sets[spot.set].members.as_slice(),
                spot.period,
                price,
            );
        }
    }
}

/// How many members are in progress in period `t`.
fn busy_count(inst: &Instance, busy: &[bool], members: &[u32], t: u32) -> i64
    requires each { length busy.now ≡ length inst.now.names * inst.now.periods }
    requires members { AreNumbers inst.now members.now }
    requires from { 1 ≤ t }
    requires to { t ≤ inst.now.periods }
{
    let mut count: i64 = 0;
    for i in members {
        count = count.saturating_add(i64::from(busy[period_place(inst, *i, t)]));
    }
    count
}

/// Moves all prices by how many members are in progress, less the one that may be.
pub(crate) fn step_charges(
    inst: &Instance,
    charges: &mut [Number],
    sets: &[Set],
    spots: &[Spot],
    busy: &[bool],
    scales: Scales,
    pace: Pace,
)
    requires busy { length busy.now ≡ length inst.now.names * inst.now.periods }
    requires sets { AreSets inst.now sets.now }
    requires spots { AreSpots inst.now (length sets.now) spots.now }
    requires charges { length charges.old ≡ length spots.now }
{
    for (k, spot) in spots.iter().enumerate() {
        let count = busy_count(inst, busy, sets[spot.set].members.as_slice(), spot.period);
        let charge = &mut charges[k];
        charge.pull(count.saturating_sub(1).saturating_mul(MEAN));
        charge.go_above_zero(scales.cliques(), pace);
    }
}

/// Notes that these are the best prices so far.
pub(crate) fn keep_charges(charges: &mut [Number]) {
    for charge in charges.iter_mut() {
        charge.keep();
    }
}
