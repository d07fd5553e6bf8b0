//! A price list is told as a refined one.
ghost use Rattle.std.specs.Prelude.{◌≡◌, [], ◌∷◌, map, None, IfOk, option_map, replicate};
ghost use Rattle.lagrange_bound.specs.Prices.{IsPriceList};
ghost use Rattle.refined_check.specs.Singles.{single, singles_of, refined_of, IsSameList};

use instance_model::Instance;
use lagrange_bound::{Prices, Tail};
use refined_check::price_lists_are_refined;
use refined_prices::{Group, GroupTail, Groups, Member, RefinedPrices};
use std::alloc::{AllocError, Global};

/// The refined list of a price list: each scenario of a tail is a group of its own with the tail's weight, no load is
/// capped, and there are no offsets and no cliques. It is in range, and has the same price at each start and the same
/// constant.
pub fn refined_list(
    alloc: Global,
    inst: &Instance,
    prices: &Prices,
) -> Result<RefinedPrices, AllocError>
    requires { IsPriceList inst.now prices.now }
    ensures value { IfOk result (λ list. list ≡ refined_of inst.now prices.now) }
    ensures same { IfOk result (IsSameList inst.now prices.now) }
{
    price_lists_are_refined();
    let tails = group_tails(alloc, inst, prices)?;
    let limits = without_tails(inst, prices)?;
    let list = RefinedPrices::from_parts(limits, false, tails, Vec::new(alloc), Vec::new(alloc));
    Ok(list)
}

/// The prices on limits and exclusions alone.
fn without_tails(inst: &Instance, prices: &Prices) -> Result<Prices, AllocError>
    requires { IsPriceList inst.now prices.now }
    ensures { IfOk result (λ limits. limits ≡ record prices.now { tails = replicate inst.now.periods None }) }
{
    let mut limits = prices.clone()?;
    for t in 1..inst.periods() + 1 {
        limits.set_tail(inst, t, None);
    }
    Ok(limits)
}

/// The tails of a price list, by period, as ones by groups.
fn group_tails(
    alloc: Global,
    inst: &Instance,
    prices: &Prices,
) -> Result<Vec<Option<GroupTail>>, AllocError>
    requires { IsPriceList inst.now prices.now }
    ensures { IfOk result (λ tails. tails.items ≡ map (option_map singles_of) prices.now.tails) }
{
    let mut tails = Vec::new(alloc);
    for t in 1..inst.periods() + 1 {
        tails.push(group_tail(alloc, prices.tail(inst, t))?)?;
    }
    Ok(tails)
}

/// A tail as one by groups, where there is one.
fn group_tail(alloc: Global, tail: Option<&Tail>) -> Result<Option<GroupTail>, AllocError>
    ensures { IfOk result (λ groups. groups ≡ option_map singles_of (option_map (λ x. x.now) tail.entry)) }
{
    match tail {
        Some(tail) => Ok(Some(groups_of_one(alloc, tail)?)),
        None => Ok(None),
    }
}

/// The scenarios of a tail as groups of one scenario each.
fn groups_of_one(alloc: Global, tail: &Tail) -> Result<GroupTail, AllocError>
    ensures { IfOk result (λ groups. groups ≡ singles_of tail.now) }
{
    let weight = tail.weight;
    let mut groups = Vec::new(alloc);
    for scenario in tail.places.as_slice() {
        groups.push(group_of_one(alloc, weight, *scenario)?)?;
    }
    Ok(GroupTail {
        weight,
        groups: Groups::from_vec(groups),
    })
}

/// A group of one scenario.
fn group_of_one(alloc: Global, weight: u32, scenario: u32) -> Result<Group, AllocError>
    ensures { IfOk result (λ group. group ≡ single weight scenario) }
{
    let members = vec![in alloc; Member { scenario, weight }]?;
    Ok(Group::from_vec(members))
}
