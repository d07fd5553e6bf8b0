//! The trait of goals: contracts see one as the values of plans and the bases of starts, with the law that ties them.
ghost use Rattle.std.specs.Prelude.{◌≡◌, ◌<◌, ◌^◌, length, IfOk, IsTrue, unsigned_abs};
ghost use Rattle.instance_model.specs.Tables.{is_allowed};
ghost use Rattle.instance_model.specs.Plans.{AreAllowedStarts};
ghost use Rattle.lagrange_bound.specs.Prices.{IsPriceList};
ghost use Rattle.lagrange_bound.specs.Goals.{Bases, PlanValue, BasesBoundValue, BasesAreSmall, ValuesAreSmall};

use crate::Prices;
use instance_model::Instance;
use std::alloc::{AllocError, Global};

/// What plans are to make small: a value for each plan, and for each price list
/// the share of it that a start has at least.
pub trait Goal {
    /// The base of each start under each price list.
    ghost base_gives: { Self → Bases };

    /// The value of each plan of allowed starts.
    ghost value_gives: { Self → PlanValue };

    /// The base of intervention `i` at start `s`. Takes no memory.
    fn base(&self, inst: &Instance, prices: &Prices, i: u32, s: u32) -> i128
        requires number { i < length inst.now.names }
        requires allowed { IsTrue (is_allowed inst.now i s) }
        requires prices { IsPriceList inst.now prices.now }
        ensures value { result ≡ base_gives self.now inst.now prices.now i s }
        ensures small { unsigned_abs result < 10 ^ 30 };

    /// The value of a plan, given by one allowed start for each intervention.
    fn value(&self, alloc: Global, inst: &Instance, starts: &[u32]) -> Result<i128, AllocError>
        requires { AreAllowedStarts inst.now starts.now }
        ensures value { IfOk result (λ v. v ≡ value_gives self.now inst.now starts.now) }
        ensures small { IfOk result (λ v. unsigned_abs v < 10 ^ 36) };

    /// Whatever the prices are, the bases of a plan's starts add up to at most its value.
    ghost law: { (goal : Self) → BasesBoundValue (base_gives goal) (value_gives goal) };

    /// Whatever the prices are, the bases of allowed starts are below 10^30 in absolute value.
    ghost small_bases: { (goal : Self) → BasesAreSmall (base_gives goal) };

    /// The values of plans of allowed starts are below 10^36 in absolute value.
    ghost small_values: { (goal : Self) → ValuesAreSmall (value_gives goal) };
}
