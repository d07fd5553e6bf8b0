//! The trait of ladders: contracts see one as the price list that it is at.
ghost use Rattle.std.specs.Prelude.{◌≡◌, ◌<◌, ◌≤◌, ◌^◌, IfOk, OnOk, unsigned_abs};
ghost use Rattle.instance_model.specs.Tables.{Tables};
ghost use Rattle.instance_model.specs.Plans.{AreAllowedStarts};
ghost use Rattle.lagrange_bound.specs.Prices.{PriceList, IsPriceList};
ghost use Rattle.lagrange_bound.specs.Boxes.{HasStarts};
ghost use Rattle.certificate_tree.specs.Trees.{root_box};
ghost use Rattle.price_ladder.specs.Places.{IsPlace, IsWithValue};
ghost use Rattle.price_ladder.specs.Steps.{IsTailStep};
ghost use Rattle.price_ladder.specs.Raised.{root_worth};
ghost use Rattle.price_ladder.specs.Tried.{IsTried};

use crate::Place;
use instance_model::Instance;
use lagrange_bound::Prices;
use std::alloc::{AllocError, Global};

/// A price list on its way up. After a refusal for want of memory it may be any.
pub(crate) trait Ladder {
    /// The list.
    ghost list: { Self → PriceList };

    /// What is kept beside the list belongs to it and to this instance.
    ghost is_kept: { Tables → Self → Type 0 };

    /// The list, to be read.
    fn prices(&self) -> &Prices
        ensures { result.now ≡ list self.now };

    /// The worth of the box of all starts.
    fn worth(&self, alloc: Global, inst: &Instance) -> Result<i128, AllocError>
        requires prices { IsPriceList inst.now (list self.now) }
        requires kept { is_kept inst.now self.now }
        requires starts { HasStarts inst.now (root_box inst.now) }
        ensures value { IfOk result (λ w. w ≡ root_worth inst.now (list self.now)) }
        ensures small { IfOk result (λ w. unsigned_abs w < 10 ^ 37) };

    /// Puts another number at a place if that leads to a worth of at least the target, or leaves the list as it is.
    fn try_value(
        &mut self,
        alloc: Global,
        inst: &Instance,
        place: Place,
        v: u32,
        target: i128,
    ) -> Result<bool, AllocError>
        requires prices { IsPriceList inst.now (list self.old) }
        requires kept { is_kept inst.now self.old }
        requires starts { HasStarts inst.now (root_box inst.now) }
        requires place { IsPlace inst.now place }
        requires small { v ≤ 1_000_000_000 }
        ensures tried { IfOk result (IsTried inst.now (list self.old) (list self.new) target
            (λ new. IsWithValue inst.now (list self.old) new place v)) }
        ensures kept { OnOk result (is_kept inst.now self.new) };

    /// Switches the tail of period `t` between none and that of a plan, given by its starts, on the same condition.
    fn try_tail(
        &mut self,
        alloc: Global,
        inst: &Instance,
        starts: &[u32],
        t: u32,
        target: i128,
    ) -> Result<bool, AllocError>
        requires prices { IsPriceList inst.now (list self.old) }
        requires kept { is_kept inst.now self.old }
        requires starts { AreAllowedStarts inst.now starts.now }
        requires from { 1 ≤ t }
        requires to { t ≤ inst.now.periods }
        ensures tried { IfOk result (IsTried inst.now (list self.old) (list self.new) target
            (IsTailStep inst.now starts.now (list self.old) t)) }
        ensures kept { OnOk result (is_kept inst.now self.new) };
}
