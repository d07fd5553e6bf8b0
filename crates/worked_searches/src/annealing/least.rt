//! The best plan that is met.

use crate::annealing::judged::{drawn, score_of};
use crate::annealing::shapes::{MIXED, Shape};
use instance_model::Instance;
use plan_annealing::anneal;
use small_instances::are_allowed;
use std::alloc::{AllocError, Global};
use std::test::Fail;

/// Instances with few plans.
const FEW: Shape = Shape {
    periods: 4,
    ..MIXED
};

/// How many plans of four interventions those have.
const PLANS: u32 = 256;

/// How many instances are drawn.
const INSTANCES: u64 = 20;

/// The starts of a plan by its number.
fn starts_of(place: u32) -> [u32; 4] {
    [
        1 + place % 4,
        1 + place / 4 % 4,
        1 + place / 16 % 4,
        1 + place / 64 % 4,
    ]
}

/// The least score of all plans that keep every rule.
fn least_score(alloc: Global, inst: &Instance) -> Result<Option<i128>, AllocError> {
    let mut least: Option<i128> = None;
    for place in 0..PLANS {
        if let Some(score) = score_of(alloc, inst, &starts_of(place))? {
            least = Some(least.unwrap_or(score).min(score));
        }
    }
    Ok(least)
}

/// The score of the plan that is found from the first plan that keeps every rule.
fn score_found(alloc: Global, inst: &Instance) -> Result<Option<i128>, AllocError> {
    for place in 0..PLANS {
        let starts = starts_of(place);
        if score_of(alloc, inst, &starts)?.is_some() && are_allowed(inst, &starts) {
            let found = anneal(alloc, inst, &starts, 20_000, 7)?;
            return score_of(alloc, inst, found.as_slice());
        }
    }
    Ok(None)
}

/// Whether it is the least one; none where no plan keeps every rule.
fn finds_least(alloc: Global, inst: &Instance) -> Result<Option<bool>, AllocError> {
    let Some(least) = least_score(alloc, inst)? else {
        return Ok(None);
    };
    Ok(Some(score_found(alloc, inst)? == Some(least)))
}

#[test]
fn finds_the_least_score(rt: HostRuntime) -> Result<(), Fail> {
    let mut count: u32 = 0;
    let mut found: u32 = 0;
    for seed in 0..INSTANCES {
        let inst = drawn(rt.alloc(), FEW, seed)?;
        if let Some(is_least) = finds_least(rt.alloc(), &inst)? {
            count = count.saturating_add(1);
            found = found.saturating_add(u32::from(is_least));
        }
    }
    assert!(rt; count > 15, "{count}");
    assert_eq!(rt; found, count);
    Ok(())
}
