//! What the prices of exclusions count for each intervention and period, and sums of these before each period.
ghost use Rattle.std.specs.Prelude.{◌≡◌, ℕ, ◌<◌, ◌≤◌, ◌^◌, ◌*◌, ◌+◌, ◌-◌, length, IfOk, slice_index, slice_set};
ghost use Rattle.instance_model.specs.Naturals.{count_sum};
ghost use Rattle.lagrange_bound.specs.Prices.{IsPriceList, IsExPrice};
ghost use Rattle.lagrange_bound.specs.ExSums.{value_at, sum_place, AreExSums, ArePrefixes};

use crate::{ExPrice, Prices};
use instance_model::Instance;
use std::alloc::{AllocError, Global};

/// Adds a value to one sum.
fn add_at(sums: &mut [u64], place: usize, value: u32)
    requires within { place < length sums.old }
    requires small { slice_index sums.old place ≤ 2 ^ 63 }
    ensures { sums.new ≡ slice_set sums.old place (slice_index sums.old place + value) }
{
    sums[place] += value as u64;
}

/// Adds a price to the sums of the interventions that its exclusion names, twice where it names one twice.
fn add_price(inst: &Instance, sums: &mut [u64], x: ExPrice)
    requires price { IsExPrice inst.now x }
    requires each { length sums.old ≡ length inst.now.names * inst.now.periods }
    requires small { (k : ℕ) → slice_index sums.old k ≤ 2 ^ 62 }
    ensures added { (i t : ℕ) → i < length inst.now.names → 1 ≤ t → t ≤ inst.now.periods →
        slice_index sums.new (sum_place inst.now i t) ≡ slice_index sums.old (sum_place inst.now i t)
        + value_at inst.now x i t }
    ensures grown { (k : ℕ) → slice_index sums.new k ≤ slice_index sums.old k + 2_000_000_000 }
{
    let exclusion = inst.exclusion(x.exclusion);
    let periods = inst.periods() as usize;
    let period = x.period as usize - 1;
    add_at(sums, exclusion.first as usize * periods + period, x.value);
    add_at(sums, exclusion.second as usize * periods + period, x.value);
}

/// What the prices of exclusions count for each intervention, by intervention, then period.
pub fn exclusion_sums(
    alloc: Global,
    inst: &Instance,
    prices: &Prices,
) -> Result<Vec<u64>, AllocError>
    requires { IsPriceList inst.now prices.now }
    ensures { IfOk result (λ sums. AreExSums inst.now prices.now.ex sums.items) }
{
    inst.fits();
    let mut sums = vec![in alloc; 0; inst.interventions() as usize * inst.periods() as usize]?;
    for x in prices.ex_prices() {
        add_price(inst, sums.as_mut_slice(), *x);
    }
    Ok(sums)
}

/// The sums of none, of the first, of the first two, .., of all `n` numbers from a place on.
pub(crate) fn prefix_sums(
    alloc: Global,
    numbers: &[u64],
    from: usize,
    n: u32,
) -> Result<Vec<u64>, AllocError>
    requires within { from + n ≤ length numbers.now }
    requires small { (t : ℕ) → t ≤ n → count_sum t (λ u. slice_index numbers.now (from + u)) ≤ 2 ^ 62 }
    ensures { IfOk result (λ prefixes. ArePrefixes n numbers.now from prefixes.items) }
{
    let mut prefixes = Vec::with_capacity(alloc, n as usize + 1)?;
    let mut sum = 0;
    prefixes.push(0)?;
    for u in 0..n {
        sum += numbers[from + u as usize];
        prefixes.push(sum)?;
    }
    Ok(prefixes)
}
