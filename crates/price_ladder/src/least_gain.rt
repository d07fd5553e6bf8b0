//! What a ladder step has to gain at least to be taken.
ghost use Rattle.std.specs.Prelude.{◌≡◌, ◌<◌, ◌≤◌, ◌*◌, ◌^◌, length, IfOk, unsigned_abs};
ghost use Rattle.instance_model.specs.Plans.{AreAllowedStarts};
ghost use Rattle.lagrange_bound.specs.Prices.{zero_list};
ghost use Rattle.lagrange_bound.specs.Goals.{risk_base};
ghost use Rattle.certificate_tree.specs.Loads.{greatest_over};
ghost use Rattle.price_ladder.specs.Raised.{root_starts, greatest_total, least_gain};

use crate::root::root_worth;
use instance_model::Instance;
use lagrange_bound::{Goal, Prices, RiskGoal};
use std::alloc::{AllocError, Global};

/// The greatest base of intervention `i` by the list of zeros, of which its start in a plan is one.
fn greatest_base(inst: &Instance, zero: &Prices, starts: &[u32], i: u32) -> i128
    requires zero { zero.now ≡ zero_list inst.now }
    requires starts { AreAllowedStarts inst.now starts.now }
    requires number { i < length inst.now.names }
    ensures value { result ≡ greatest_over (risk_base inst.now (zero_list inst.now) i) (root_starts inst.now i) }
    ensures small { unsigned_abs result < 10 ^ 30 }
{
    inst.fits();
    let mut greatest = RiskGoal.base(inst, zero, i, starts[i as usize]);
    for s in 1..inst.tmax(i) + 1 {
        if inst.allowed(i, s) {
            greatest = greatest.max(RiskGoal.base(inst, zero, i, s));
        }
    }
    greatest
}

/// The sum of the greatest bases by the list of zeros.
fn greatest_total(inst: &Instance, zero: &Prices, starts: &[u32]) -> i128
    requires zero { zero.now ≡ zero_list inst.now }
    requires starts { AreAllowedStarts inst.now starts.now }
    ensures value { result ≡ greatest_total inst.now }
    ensures small { unsigned_abs result ≤ 1024 * 10 ^ 30 }
{
    let mut sum: i128 = 0;
    for i in 0..inst.interventions() {
        sum += greatest_base(inst, zero, starts, i);
    }
    sum
}

/// What a step has to gain at least. Takes memory for a price list and a table of prices.
pub(crate) fn least_gain(alloc: Global, inst: &Instance, starts: &[u32]) -> Result<i128, AllocError>
    requires { AreAllowedStarts inst.now starts.now }
    ensures value { IfOk result (λ gain. gain ≡ least_gain inst.now) }
    ensures small { IfOk result (λ gain. unsigned_abs gain ≤ 10 ^ 36) }
{
    let zero = Prices::zero(alloc, inst)?;
    let least = root_worth(alloc, inst, &zero)?;
    let range = greatest_total(inst, &zero, starts) - least;
    Ok(1 + range.div_euclid(200))
}
