//! The plain ladder: the worth of each changed list is computed whole.
ghost use Rattle.std.specs.Prelude.{◌≡◌, ◌≤◌, ◌≤ℤ◌, ◌↔◌, length, IfOk, IsTrue, Some};
ghost use Rattle.instance_model.specs.Plans.{AreAllowedStarts};
ghost use Rattle.lagrange_bound.specs.Prices.{IsPriceList, IsTail, tail_of, zero_list};
ghost use Rattle.lagrange_bound.specs.Changes.{with_tail};
ghost use Rattle.lagrange_bound.specs.Boxes.{HasStarts};
ghost use Rattle.lagrange_bound.specs.Worth.{price_total};
ghost use Rattle.certificate_tree.specs.Trees.{root_box};
ghost use Rattle.price_ladder.specs.Raised.{root_worth, least_total, IsRaised};
ghost use Rattle.price_ladder.specs.Tried.{IsTried};

use crate::Place;
use crate::climb::climb;
use crate::ladder::Ladder;
use crate::place::{set_value, value_at};
use crate::plan_tail::plan_tail;
use crate::root::root_worth;
use instance_model::Instance;
use lagrange_bound::{Prices, Tail};
use std::alloc::{AllocError, Global};

/// A list with nothing kept beside it.
#[derive(Drop)]
struct Plain {
    prices: Prices,
}

impl Ladder for Plain {
    ghost list = { λ plain. plain.prices };

    ghost is_kept = { λ inst plain. Unit {0} };

    fn prices(&self) -> &Prices {
        &self.prices
    }

    fn worth(&self, alloc: Global, inst: &Instance) -> Result<i128, AllocError> {
        root_worth(alloc, inst, &self.prices)
    }

    fn try_value(
        &mut self,
        alloc: Global,
        inst: &Instance,
        place: Place,
        v: u32,
        target: i128,
    ) -> Result<bool, AllocError> {
        let before = value_at(inst, &self.prices, place);
        set_value(inst, &mut self.prices, place, v)?;
        if root_worth(alloc, inst, &self.prices)? >= target {
            return Ok(true);
        }
        set_value(inst, &mut self.prices, place, before)?;
        Ok(false)
    }

    fn try_tail(
        &mut self,
        alloc: Global,
        inst: &Instance,
        starts: &[u32],
        t: u32,
        target: i128,
    ) -> Result<bool, AllocError> {
        let own = plan_tail(alloc, inst, starts, t)?;
        let Some(tail) = self.prices.tail(inst, t) else {
            return try_switch(alloc, inst, &mut self.prices, t, None, Some(own), target);
        };
        if !is_same(tail, &own) {
            return Ok(false);
        }
        try_switch(alloc, inst, &mut self.prices, t, Some(own), None, target)
    }
}

/// Puts another tail of period `t`, or none, in place of the one before, if
/// that leads to a worth of at least the target.
fn try_switch(
    alloc: Global,
    inst: &Instance,
    prices: &mut Prices,
    t: u32,
    before: Option<Tail>,
    tail: Option<Tail>,
    target: i128,
) -> Result<bool, AllocError>
    requires prices { IsPriceList inst.now prices.old }
    requires starts { HasStarts inst.now (root_box inst.now) }
    requires from { 1 ≤ t }
    requires to { t ≤ inst.now.periods }
    requires before { before ≡ tail_of prices.old t }
    requires tail { (some : _) → tail ≡ Some some → IsTail inst.now t some }
    ensures { IfOk result (IsTried inst.now prices.old prices.new target (λ new. new ≡ with_tail prices.old t tail)) }
{
    prices.set_tail(inst, t, tail);
    if root_worth(alloc, inst, prices)? >= target {
        return Ok(true);
    }
    prices.set_tail(inst, t, before);
    Ok(false)
}

/// Whether two tails are the same.
pub(crate) fn is_same(a: &Tail, b: &Tail) -> bool
    ensures { IsTrue result ↔ (a.now ≡ b.now) }
{
    a.weight == b.weight && a.places.as_slice() == b.places.as_slice()
}

/// A list that is raised for a plan, given by one allowed start for each intervention: from zeros, the first step in a
/// fixed order that gains enough, until there is none. Slow: each worth is computed whole.
pub fn raise_plainly(alloc: Global, inst: &Instance, starts: &[u32]) -> Result<Prices, AllocError>
    requires { AreAllowedStarts inst.now starts.now }
    ensures in_range { IfOk result (IsPriceList inst.now) }
    ensures raised { IfOk result (IsRaised inst.now starts.now) }
    ensures not_below_zeros { IfOk result (λ prices. least_total inst.now ≤ℤ root_worth inst.now prices) }
    ensures zeros { IfOk result (λ _. root_worth inst.now (zero_list inst.now) ≡ least_total inst.now) }
    ensures small { IfOk result (λ prices. price_total prices ≤ 40_000_000_000) }
    ensures few_exclusions { IfOk result (λ prices. length prices.ex ≤ 400) }
{
    let mut plain = Plain {
        prices: Prices::zero(alloc, inst)?,
    };
    climb(alloc, inst, starts, &mut plain)?;
    Ok(plain.prices)
}
