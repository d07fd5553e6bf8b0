//! Worked rows: the list that the plain ladder raises for a plan, with its worth, on instances small enough to find
//! them by hand. The fast ladder's list is one of several: its worth is at least as great here, and at most that of
//! the best list.

ghost use Rattle.std.specs.Prelude.{◌≤◌};
ghost use Rattle.instance_model.specs.Plans.{AreAllowedStarts};
ghost use Rattle.lagrange_bound.specs.Prices.{IsPriceList};

use crate::samples::{floor, instance, skewed};
use crate::{raised_bound, root_worth};
use instance_model::Instance;
use lagrange_bound::Prices;
use price_ladder::{raise_plainly, raise_prices};
use small_instances::are_allowed;
use std::alloc::{AllocError, Global};
use std::test::Fail;

/// What a risk of 1 adds to a score.
const ONE: i128 = 1_000_000_000_000_000_000;

/// Two interventions of one period each, both of which may run in either of two periods. Together they
/// load `c` by 12 of 10. The mean alone costs.
const PAIR: &str = r#"{"Resources":{"c":{"max":[10,10],"min":[0,0]}},"Seasons":{},
"Interventions":{
"A":{"tmax":2,"Delta":[1,1],
"workload":{"c":{"1":{"1":6},"2":{"2":6}}},
"risk":{"1":{"1":[0]},"2":{"2":[4]}}},
"B":{"tmax":2,"Delta":[1,1],
"workload":{"c":{"1":{"1":6},"2":{"2":6}}},
"risk":{"1":{"1":[0]},"2":{"2":[2]}}}},
"Exclusions":{},"T":2,"Scenarios_number":[1,1],
"Quantile":1,"Alpha":1}"#;

/// The same, with room for both, but they exclude each other.
const APART: &str = r#"{"Resources":{"c":{"max":[12,12],"min":[0,0]}},"Seasons":{"w":[1,2]},
"Interventions":{
"A":{"tmax":2,"Delta":[1,1],
"workload":{"c":{"1":{"1":6},"2":{"2":6}}},
"risk":{"1":{"1":[0]},"2":{"2":[4]}}},
"B":{"tmax":2,"Delta":[1,1],
"workload":{"c":{"1":{"1":6},"2":{"2":6}}},
"risk":{"1":{"1":[0]},"2":{"2":[2]}}}},
"Exclusions":{"E":["A","B","w"]},"T":2,"Scenarios_number":[1,1],
"Quantile":1,"Alpha":1}"#;

/// No intervention.
const IDLE: &str = r#"{"Resources":{},"Seasons":{},"Interventions":{},"Exclusions":{},
"T":1,"Scenarios_number":[1],"Quantile":1,"Alpha":1}"#;

/// What a raised list has in period 1, or none of it: the prices on the limits of the first resource, that of the first
/// exclusion, and the tail's weight with its scenario, where it is one.
#[derive(Clone, Copy, Debug, PartialEq, Eq)]
struct Row {
    worth: i128,
    up: u32,
    lo: u32,
    ex: u32,
    weight: u32,
    scenario: u32,
}

/// The prices on the limits of the first resource.
fn limits_of(inst: &Instance, prices: &Prices) -> (u32, u32)
    requires { IsPriceList inst.now prices.now }
{
    let _periods = inst.periods();
    if inst.resources() == 0 {
        return (0, 0);
    }
    (prices.up(inst, 0, 1), prices.lo(inst, 0, 1))
}

/// The weight and the scenario of a tail.
fn tail_of(inst: &Instance, prices: &Prices) -> (u32, u32)
    requires { IsPriceList inst.now prices.now }
{
    let _periods = inst.periods();
    let Some(tail) = prices.tail(inst, 1) else {
        return (0, 0);
    };
    match tail.places.as_slice() {
        [scenario] => (tail.weight, *scenario),
        _ => (tail.weight, 0),
    }
}

/// What a list has that is raised for a plan of these starts.
fn row_of(
    alloc: Global,
    inst: &Instance,
    prices: &Prices,
    starts: &[u32],
) -> Result<Row, AllocError>
    requires prices { IsPriceList inst.now prices.now }
    requires starts { AreAllowedStarts inst.now starts.now }
{
    let worth = root_worth(alloc, inst, prices, starts)?;
    let (up, lo) = limits_of(inst, prices);
    let (weight, scenario) = tail_of(inst, prices);
    Ok(Row {
        worth,
        up,
        lo,
        ex: prices.ex(inst, 0, 1),
        weight,
        scenario,
    })
}

/// What the list has that the plain ladder raises for a plan of these starts, where they are allowed, and the worth of
/// the list that the fast one raises, which is read off a clone.
fn rows_of(
    alloc: Global,
    inst: &Instance,
    starts: &[u32],
) -> Result<Option<(Row, i128)>, AllocError> {
    if !are_allowed(inst, starts) {
        return Ok(None);
    }
    let plain = raise_plainly(alloc, inst, starts)?;
    let fast = raise_prices(alloc, inst, starts)?;
    let copy = fast.clone()?;
    Ok(Some((
        row_of(alloc, inst, &plain, starts)?,
        root_worth(alloc, inst, &copy, starts)?,
    )))
}

/// The same, on the instance of a text.
fn raised(alloc: Global, text: &str, starts: &[u32]) -> Result<Option<(Row, i128)>, Fail> {
    let inst = instance(alloc, text)?;
    Ok(rows_of(alloc, &inst, starts)?)
}

/// Whether no limit has a price in period `t`.
fn limits_are_free(inst: &Instance, prices: &Prices, t: u32) -> bool
    requires prices { IsPriceList inst.now prices.now }
    requires from { 1 ≤ t }
    requires to { t ≤ inst.now.periods }
{
    for c in 0..inst.resources() {
        if prices.up(inst, c, t) != 0 || prices.lo(inst, c, t) != 0 {
            return false;
        }
    }
    true
}

/// Whether a list is that of zeros: no limit and no exclusion has a price, and no period a tail.
fn is_zero(inst: &Instance, prices: &Prices) -> bool
    requires { IsPriceList inst.now prices.now }
{
    for t in 1..inst.periods() + 1 {
        if prices.tail(inst, t).is_some() || !limits_are_free(inst, prices, t) {
            return false;
        }
    }
    prices.ex_prices().is_empty()
}

/// Whether the fast ladder raises the list of zeros for a plan of these starts, where they are allowed, on the instance
/// of a text.
fn zeros_are_raised(alloc: Global, text: &str, starts: &[u32]) -> Result<Option<bool>, Fail> {
    let inst = instance(alloc, text)?;
    if !are_allowed(&inst, starts) {
        return Ok(None);
    }
    let prices = raise_prices(alloc, &inst, starts)?;
    Ok(Some(is_zero(&inst, &prices)))
}

/// The bound that is raised for a plan of these starts, where they are allowed, on the instance of a text.
fn bound_of(alloc: Global, text: &str, starts: &[u32]) -> Result<Option<i128>, Fail> {
    let inst = instance(alloc, text)?;
    if !are_allowed(&inst, starts) {
        return Ok(None);
    }
    Ok(Some(raised_bound(alloc, &inst, starts)?))
}

/// Whether the row is that of the plain ladder, and the fast one's worth is no less, and at most `best`.
fn are_as_wanted(rows: Option<(Row, i128)>, wanted: Row, best: i128) -> bool {
    match rows {
        Some((plain, fast)) => plain == wanted && wanted.worth <= fast && fast <= best,
        None => false,
    }
}

/// g is 3 * 10^16 and 1 more. A step of 10^5 on the upper limit makes A and B cost 0.6 more each in period 1, and takes
/// 1 off. After a fourth, B would start in period 2.
#[test]
fn full_resources_get_a_price(rt: HostRuntime) -> Result<(), Fail> {
    let rows = raised(rt.alloc(), PAIR, &[1, 1])?;
    let wanted = Row {
        worth: 600_000_000_000_000_000,
        up: 300_000,
        lo: 0,
        ex: 0,
        weight: 0,
        scenario: 0,
    };
    assert!(rt;
        are_as_wanted(rows, wanted, 666_666_666_666_666_667),
        "{rows:?}"
    );
    Ok(())
}

/// A step of 10^5 makes A and B cost 0.1 more each in period 1, and takes 0.1 off.
/// After the twentieth, B would start in period 2.
#[test]
fn exclusions_get_a_price(rt: HostRuntime) -> Result<(), Fail> {
    let rows = raised(rt.alloc(), APART, &[1, 1])?;
    let wanted = Row {
        worth: 2 * ONE,
        up: 0,
        lo: 0,
        ex: 2_000_000,
        weight: 0,
        scenario: 0,
    };
    assert!(rt; are_as_wanted(rows, wanted, 2 * ONE), "{rows:?}");
    Ok(())
}

/// g is 1.5 * 10^16 and 1 more. A step of 10^4 makes A cost 0.05 less in period 1, and adds
/// 0.05. After the sixtieth, A would start there.
#[test]
fn lower_limits_get_a_price(rt: HostRuntime) -> Result<(), Fail> {
    let rows = raised(rt.alloc(), floor(), &[1])?;
    let wanted = Row {
        worth: 3 * ONE,
        up: 0,
        lo: 600_000,
        ex: 0,
        weight: 0,
        scenario: 0,
    };
    assert!(rt; are_as_wanted(rows, wanted, 3 * ONE), "{rows:?}");
    Ok(())
}

/// The only plan is Z and U, so g is 1. With the tail the whole excess of half a unit counts.
#[test]
fn greatest_scenario_gets_the_tail(rt: HostRuntime) -> Result<(), Fail> {
    let rows = raised(rt.alloc(), skewed(), &[1])?;
    let wanted = Row {
        worth: 1_500_000_000_000_000_000,
        up: 0,
        lo: 0,
        ex: 0,
        weight: 1000,
        scenario: 2,
    };
    assert!(rt;
        are_as_wanted(rows, wanted, 1_500_000_000_000_000_000),
        "{rows:?}"
    );
    Ok(())
}

#[test]
fn nothing_is_raised_without_interventions(rt: HostRuntime) -> Result<(), Fail> {
    let rows = raised(rt.alloc(), IDLE, &[])?;
    let wanted = Row {
        worth: 0,
        up: 0,
        lo: 0,
        ex: 0,
        weight: 0,
        scenario: 0,
    };
    assert!(rt; are_as_wanted(rows, wanted, 0), "{rows:?}");
    Ok(())
}

/// The list itself: no number of it is above 0 where there is no intervention, and one is where a step gains.
#[test]
fn zeros_are_raised_where_no_step_gains(rt: HostRuntime) -> Result<(), Fail> {
    let alloc = rt.alloc();
    assert_eq!(rt; zeros_are_raised(alloc, IDLE, &[])?, Some(true));
    assert_eq!(rt; zeros_are_raised(alloc, PAIR, &[1, 1])?, Some(false));
    assert_eq!(rt; zeros_are_raised(alloc, skewed(), &[1])?, Some(false));
    Ok(())
}

#[test]
fn a_bound_is_the_worth_of_the_plain_list(rt: HostRuntime) -> Result<(), Fail> {
    let bound = bound_of(rt.alloc(), PAIR, &[1, 1])?;
    assert_eq!(rt; bound, Some(600_000_000_000_000_000));
    Ok(())
}
