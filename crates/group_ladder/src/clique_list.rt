//! The best prices of cliques, in the order of a refined price list.
use crate::clique::{Set, Spot};
use crate::number::Number;
use crate::units::Units;
use lagrange_bound::Places;
use refined_prices::Clique;
use std::alloc::{AllocError, Global};
use std::cmp::Ordering;

/// How many cliques a list has at most.
const FEW: usize = 4096;

/// A clique with its price.
#[derive(Drop)]
struct Found {
    period: u32,
    members: Vec<u32>,
    value: u32,
}

/// The order of a list: by period, then members.
fn order(a: &Found, b: &Found) -> Ordering {
    match a.period.cmp(&b.period) {
        Ordering::Equal => a.members.cmp(&b.members),
        by_period => by_period,
    }
}

/// The least price that goes into a list, so that at most `count` do.
fn least_put(
    alloc: Global,
    units: Units,
    charges: &[Number],
    count: usize,
) -> Result<u32, AllocError> {
    let mut values = Vec::with_capacity(alloc, charges.len())?;
    for charge in charges {
        values.push(units.clique_price(charge.best()))?;
    }
    values.sort_unstable();
    if values.len() <= count {
        return Ok(1);
    }
    Ok(values[values.len() - 1 - count].saturating_add(1))
}

/// The members of a set in ascending order.
fn sorted(set: &Set) -> Result<Vec<u32>, AllocError> {
    let mut members = set.members.clone()?;
    members.sort_unstable();
    Ok(members)
}

/// The greatest prices with their cliques, in order.
fn found_of(
    alloc: Global,
    units: Units,
    sets: &[Set],
    spots: &[Spot],
    charges: &[Number],
) -> Result<Vec<Found>, AllocError> {
    let least = least_put(alloc, units, charges, FEW)?;
    let mut found = Vec::new(alloc);
    for (spot, charge) in spots.iter().zip(charges) {
        let value = units.clique_price(charge.best());
        if value < least {
            continue;
        }
        if let Some(set) = sets.get(spot.set) {
            found.push(Found {
                period: spot.period,
                members: sorted(set)?,
                value,
            })?;
        }
    }
    found.sort_unstable_by(|a, b| order(a, b));
    Ok(found)
}

/// Whether the last clique is that of this period and of these members.
fn is_last(cliques: &[Clique], period: u32, members: &[u32]) -> bool {
    match cliques.last() {
        Some(clique) => clique.period == period && clique.members.as_slice() == members,
        None => false,
    }
}

/// The greatest prices with their cliques, each clique once in a period.
pub(crate) fn cliques_of(
    alloc: Global,
    units: Units,
    sets: &[Set],
    spots: &[Spot],
    charges: &[Number],
) -> Result<Vec<Clique>, AllocError> {
    let mut cliques = Vec::new(alloc);
    for found in found_of(alloc, units, sets, spots, charges)? {
        let Found {
            period,
            members,
            value,
        } = found;
        if !is_last(&cliques, period, &members) {
            cliques.push(Clique {
                period,
                value,
                members: Places::from_vec(members),
            })?;
        }
    }
    Ok(cliques)
}
