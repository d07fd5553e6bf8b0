//! The tail of a plan in a period: contracts cite the definition.
ghost use Rattle.std.specs.Prelude.{◌≡◌, ◌+◌, ◌*◌, ◌<◌, ◌≤◌, ◌^◌, length, map, Some, IfOk, IsTrue, unsigned_abs};
ghost use Rattle.instance_model.specs.Tables.{is_allowed, scenarios_of};
ghost use Rattle.instance_model.specs.Plans.{AreAllowedStarts, risk_at, scenario_sum, scenario_sums};
ghost use Rattle.lagrange_bound.specs.Prices.{IsTail};
ghost use Rattle.price_ladder.specs.Tails.{comes_before, count_before, first_places, plan_tail};

use duration_calendar::{in_run, run};
use fixed_num::{Fixed, Steps};
use instance_model::Instance;
use lagrange_bound::{Places, Tail};
use std::alloc::{AllocError, Global};
use std::marker::Brand;
use std::sync::ledger::{Blank, Ledger};

/// The risk of scenario `k` in period `t` that intervention `i` adds at start `s`.
fn risk_at<L: Ledger>(
    inst: &Instance,
    i: u32,
    s: u32,
    t: u32,
    k: u32,
    steps: &mut Steps<L>,
) -> Fixed
    requires number { i < length inst.now.names }
    requires allowed { IsTrue (is_allowed inst.now i s) }
    requires from { 1 ≤ k }
    requires to { k ≤ scenarios_of inst.now t }
    ensures { result ≡ risk_at inst.now t k i (Some s) }
{
    if !in_run(run(inst, i, s), t) {
        return Fixed::zero();
    }
    inst.risk_cell(i, s, t, k, steps)
}

/// The sum of scenario `k` in period `t`.
fn scenario_sum<L: Ledger>(
    inst: &Instance,
    starts: &[u32],
    t: u32,
    k: u32,
    steps: &mut Steps<L>,
) -> i128
    requires starts { AreAllowedStarts inst.now starts.now }
    requires from { 1 ≤ k }
    requires to { k ≤ scenarios_of inst.now t }
    ensures value { result ≡ scenario_sum inst.now (map Some starts.now) t k }
    ensures small { unsigned_abs result ≤ 1024 * 10 ^ 20 }
{
    let mut sum: i128 = 0;
    for i in 0..inst.interventions() {
        sum += risk_at(inst, i, starts[i as usize], t, k, steps).count();
    }
    sum
}

/// The scenario sums of period `t`, computed on a new ledger.
fn scenario_sums<L: Ledger>(
    alloc: Global,
    inst: &Instance,
    starts: &[u32],
    t: u32,
    blank: Blank,
) -> Result<Vec<i128>, AllocError>
    requires name { blank.name ≡ L.name }
    requires parts { blank.parts ≡ L.parts }
    requires some { 0 < blank.parts }
    requires starts { AreAllowedStarts inst.now starts.now }
    requires from { 1 ≤ t }
    requires to { t ≤ inst.now.periods }
    ensures { IfOk result (λ sums. sums.items ≡ scenario_sums inst.now (map Some starts.now) t) }
{
    let mut steps: Steps<L> = Steps::zero(blank);
    let mut sums = Vec::new(alloc);
    for k in 0..inst.scenarios(t) {
        sums.push(scenario_sum(inst, starts, t, k + 1, &mut steps))?;
    }
    Ok(sums)
}

/// Whether scenario `j` comes before scenario `k`.
fn comes_before(sums: &[i128], j: u32, k: u32) -> bool
    requires first { 1 ≤ j }
    requires first_within { j ≤ length sums.now }
    requires second { 1 ≤ k }
    requires second_within { k ≤ length sums.now }
    ensures { result ≡ comes_before sums.now j k }
{
    let one = sums[j as usize - 1];
    let other = sums[k as usize - 1];
    other < one || (other <= one && j < k)
}

/// How many scenarios come before scenario `k`.
fn count_before(sums: &[i128], k: u32) -> u32
    requires few { length sums.now ≤ 1024 }
    requires from { 1 ≤ k }
    requires to { k ≤ length sums.now }
    ensures { result ≡ count_before sums.now k }
{
    let mut count = 0;
    for j in 0..sums.len() as u32 {
        if comes_before(sums, j + 1, k) {
            count += 1;
        }
    }
    count
}

/// The scenarios that fewer than `m` come before. Takes as many comparisons as pairs of scenarios.
fn first_places(alloc: Global, sums: &[i128], m: u32) -> Result<Vec<u32>, AllocError>
    requires { length sums.now ≤ 1024 }
    ensures { IfOk result (λ places. places.items ≡ first_places sums.now m) }
{
    let mut places = Vec::new(alloc);
    for k in 0..sums.len() as u32 {
        if count_before(sums, k + 1) < m {
            places.push(k + 1)?;
        }
    }
    Ok(places)
}

/// The tail of a plan, given by its starts, in period `t`.
pub(crate) fn plan_tail(
    alloc: Global,
    inst: &Instance,
    starts: &[u32],
    t: u32,
) -> Result<Tail, AllocError>
    requires starts { AreAllowedStarts inst.now starts.now }
    requires from { 1 ≤ t }
    requires to { t ≤ inst.now.periods }
    ensures value { IfOk result (λ tail. tail ≡ plan_tail inst.now starts.now t) }
    ensures in_range { IfOk result (IsTail inst.now t) }
{
    let sums = scenario_sums::<Brand>(alloc, inst, starts, t, Blank::new(1))?;
    let count = inst.scenarios(t) + 1 - inst.rank(t);
    let places = first_places(alloc, sums.as_slice(), count)?;
    Ok(Tail {
        weight: 1000,
        places: Places::from_vec(places),
    })
}
