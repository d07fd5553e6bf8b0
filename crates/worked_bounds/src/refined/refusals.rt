//! Lists that are refused, each beside ones that are in range: too few groups, a scenario in two groups, and a clique of
//! another season.
ghost use Rattle.std.specs.Prelude.{IfOk};
ghost use Rattle.lagrange_bound.specs.Prices.{IsPriceList};

use crate::samples::instance;
use instance_model::Instance;
use lagrange_bound::{Places, Prices};
use refined_prices::{Clique, Group, GroupTail, Groups, Member, RefinedPrices, is_refined_list};
use std::alloc::{AllocError, Global};
use std::test::Fail;

/// Three interventions, of which any two exclude each other in period 1, and B and C alone in period 2. There are three
/// scenarios in period 1, and one in period 2. The quantile and the end are left out.
const THREE: &str = r#"{"Resources":{},"Seasons":{"w":[1],"v":[2]},
"Interventions":{
"A":{"tmax":2,"Delta":[1,1],"workload":{},"risk":{"1":{"1":[1,2,3]},"2":{"2":[1]}}},
"B":{"tmax":2,"Delta":[1,1],"workload":{},"risk":{"1":{"1":[3,1,2]},"2":{"2":[3]}}},
"C":{"tmax":2,"Delta":[1,1],"workload":{},"risk":{"1":{"1":[2,3,1]},"2":{"2":[2]}}}},
"Exclusions":{"E":["A","B","w"],"F":["C","B","w"],"G":["A","C","w"],"H":["B","C","v"]},
"T":2,"Scenarios_number":[3,1],"Alpha":0.5,"Quantile":"#;

/// Groups of scenarios with their weights, which are to come to 10.
type Weights = &'static [&'static [(u32, u32)]];

/// Two groups, as many as sums of period 1 may be at the median or above it.
const ENOUGH: Weights = &[&[(1, 10)], &[(2, 4), (3, 6)]];

/// A quantile, a period, groups and a clique of the period, and whether they are in range.
const ROWS: [(&str, u32, Weights, &[u32], bool); 19] = [
    ("0.5", 1, ENOUGH, &[], true),
    ("0.5", 1, &[&[(1, 10)], &[(2, 10)], &[(3, 10)]], &[], true),
    ("0.5", 1, &[&[(1, 4), (2, 6)]], &[], false),
    ("0.5", 1, &[], &[], false),
    ("0.5", 1, &[&[(1, 10)], &[(1, 10)]], &[], false),
    (
        "0.5",
        1,
        &[&[(1, 4), (3, 6)], &[(2, 4), (3, 6)]],
        &[],
        false,
    ),
    (
        "0.5",
        1,
        &[&[(1, 10)], &[(2, 10)], &[(1, 4), (3, 6)]],
        &[],
        false,
    ),
    // One sum alone is at the greatest or above it.
    ("1", 1, &[&[(1, 4), (3, 6)]], &[], true),
    ("1", 1, &[], &[], false),
    ("1", 1, &[&[(1, 10)], &[(1, 4), (2, 6)]], &[], false),
    // So is the one of a period with one scenario, whatever the quantile is.
    ("0.5", 2, &[&[(1, 10)]], &[], true),
    ("0.5", 2, &[], &[], false),
    ("1", 2, &[&[(1, 10)], &[(1, 10)]], &[], false),
    ("0.5", 1, ENOUGH, &[0, 1, 2], true),
    ("0.5", 1, ENOUGH, &[0, 1], true),
    ("1", 2, &[&[(1, 10)]], &[1, 2], true),
    ("1", 2, &[&[(1, 10)]], &[0, 1, 2], false),
    ("1", 2, &[&[(1, 10)]], &[0, 1], false),
    ("0.5", 3, &[&[(1, 10)]], &[1, 2], false),
];

fn group_of(alloc: Global, weights: &[(u32, u32)]) -> Result<Group, AllocError> {
    let mut members = Vec::new(alloc);
    for (scenario, weight) in weights {
        members.push(Member {
            scenario: *scenario,
            weight: *weight,
        })?;
    }
    Ok(Group::from_vec(members))
}

fn tail_of(alloc: Global, weights: Weights) -> Result<GroupTail, AllocError> {
    let mut groups = Vec::new(alloc);
    for group in weights {
        groups.push(group_of(alloc, group)?)?;
    }
    let groups = Groups::from_vec(groups);
    Ok(GroupTail { weight: 10, groups })
}

/// The tails of both periods, of which one may have one.
fn tails_of(
    alloc: Global,
    period: u32,
    weights: Weights,
) -> Result<Vec<Option<GroupTail>>, AllocError> {
    let mut tails = Vec::new(alloc);
    for t in 1..3 {
        let tail = if t == period {
            Some(tail_of(alloc, weights)?)
        } else {
            None
        };
        tails.push(tail)?;
    }
    Ok(tails)
}

/// A clique of a period, or none where it has no members.
fn cliques_of(alloc: Global, period: u32, members: &[u32]) -> Result<Vec<Clique>, AllocError> {
    let mut cliques = Vec::new(alloc);
    if !members.is_empty() {
        let members = Places::from_vec(members.to_vec(alloc)?);
        cliques.push(Clique {
            period,
            value: 5,
            members,
        })?;
    }
    Ok(cliques)
}

/// The list with these tails and cliques.
fn list_of(
    alloc: Global,
    inst: &Instance,
    tails: Vec<Option<GroupTail>>,
    cliques: Vec<Clique>,
) -> Result<RefinedPrices, AllocError>
    ensures { IfOk result (λ list. IsPriceList inst.now list.prices) }
{
    let prices = Prices::zero(alloc, inst)?;
    Ok(RefinedPrices::from_parts(prices, true, tails, Vec::new(alloc), cliques))
}

/// Whether the list of a row is in range.
fn is_in_range(
    alloc: Global,
    quantile: &str,
    period: u32,
    weights: Weights,
    members: &[u32],
) -> Result<bool, Fail> {
    let inst = instance(alloc, format!(in alloc; "{}{quantile}}}", THREE)?.as_str())?;
    let tails = tails_of(alloc, period, weights)?;
    let cliques = cliques_of(alloc, period, members)?;
    let list = list_of(alloc, &inst, tails, cliques)?;
    Ok(is_refined_list(alloc, &inst, &list)?)
}

#[test]
fn lists_out_of_range_are_refused(rt: HostRuntime) -> Result<(), Fail> {
    for (quantile, period, weights, members, wanted) in ROWS {
        let found = is_in_range(rt.alloc(), quantile, period, weights, members)?;
        assert_eq!(rt;
            found,
            wanted,
            "{quantile} {period} {weights:?} {members:?}"
        );
    }
    Ok(())
}
