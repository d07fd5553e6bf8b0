//! What the prices of exclusions and cliques count for each intervention and period, and over a run.
ghost use Rattle.std.specs.Prelude.{◌≡◌, ℕ, ◌<◌, ◌≤◌, ◌^◌, ◌*◌, ◌+◌, length, IfOk, IsTrue, slice_index};
ghost use Rattle.instance_model.specs.Tables.{is_allowed};
ghost use Rattle.lagrange_bound.specs.ExSums.{sum_place};
ghost use Rattle.lagrange_bound.specs.Worth.{ex_part};
ghost use Rattle.refined_prices.specs.Cliques.{IsPricedClique, clique_part};
ghost use Rattle.refined_prices.specs.RefinedLists.{IsRefinedList};
ghost use Rattle.refined_prices.specs.tables.PaidSums.{clique_value, ArePaid};

use crate::clique::Clique;
use crate::refined::RefinedPrices;
use duration_calendar::run;
use instance_model::Instance;
use lagrange_bound::exclusion_sums;
use std::alloc::{AllocError, Global};

/// Adds the price of a clique to the sum of each member in its period.
fn add_clique(inst: &Instance, sums: &mut Vec<u64>, x: &Clique)
    requires clique { IsPricedClique inst.now x.now }
    requires each { length sums.old.items ≡ length inst.now.names * inst.now.periods }
    requires small { (i t : ℕ) → i < length inst.now.names → 1 ≤ t → t ≤ inst.now.periods →
        slice_index sums.old.items (sum_place inst.now i t) ≤ 2 ^ 62 }
    ensures each { length sums.new.items ≡ length sums.old.items }
    ensures added { (i t : ℕ) → i < length inst.now.names → 1 ≤ t → t ≤ inst.now.periods →
        slice_index sums.new.items (sum_place inst.now i t)
        ≡ slice_index sums.old.items (sum_place inst.now i t) + clique_value x.now i t }
{
    inst.fits();
    let periods = inst.periods() as usize;
    let period = x.period as usize - 1;
    for i in x.members.as_slice() {
        let place = *i as usize * periods + period;
        sums[place] += x.value as u64;
    }
}

/// What the prices of exclusions and cliques count, by intervention, then period.
pub(crate) fn paid_sums(
    alloc: Global,
    inst: &Instance,
    list: &RefinedPrices,
) -> Result<Vec<u64>, AllocError>
    requires { IsRefinedList inst.now list.now }
    ensures { IfOk result (λ sums. ArePaid inst.now list.now sums.items) }
{
    inst.fits();
    let mut sums = exclusion_sums(alloc, inst, list.prices())?;
    for x in list.cliques() {
        add_clique(inst, &mut sums, x);
    }
    Ok(sums)
}

/// What the prices of exclusions and cliques add at start `s` of intervention `i`, in units of 10^12.
pub(crate) fn paid_over(inst: &Instance, list: &RefinedPrices, sums: &[u64], i: u32, s: u32) -> u128
    requires number { i < length inst.now.names }
    requires allowed { IsTrue (is_allowed inst.now i s) }
    requires list { IsRefinedList inst.now list.now }
    requires sums { ArePaid inst.now list.now sums.now }
    ensures value { result
        ≡ ex_part inst.now list.now.prices.ex i s + clique_part inst.now list.now.cliques i s }
    ensures small { result ≤ 512 * (2 ^ 25 * 2_000_000_000 + 4096 * 1_000_000_000) }
{
    inst.fits();
    let periods = inst.periods() as usize;
    let window = run(inst, i, s);
    let mut sum: u128 = 0;
    for t in window.from..window.past {
        sum += sums[i as usize * periods + (t as usize - 1)] as u128;
    }
    sum
}
