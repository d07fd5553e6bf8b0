//! All ladder steps of a price list, in a fixed order: the first one that leads to a great enough worth is taken.
//!
//! The loops over limits and over exclusions stand apart, though they look alike: the contract of each says of its own
//! places that no step there leads so far, and of exclusions those of their seasons alone are places.
ghost use Rattle.std.specs.Prelude.{◌<◌, ◌≤◌, length, IfOk, OnOk};
ghost use Rattle.instance_model.specs.Plans.{AreAllowedStarts};
ghost use Rattle.lagrange_bound.specs.Prices.{IsPriceList};
ghost use Rattle.lagrange_bound.specs.Boxes.{HasStarts};
ghost use Rattle.certificate_tree.specs.Trees.{root_box};
ghost use Rattle.price_ladder.specs.Steps.{IsLadderStep};
ghost use Rattle.price_ladder.specs.Tried.{IsTried, IsStepAmong, IsAnyTailStep, IsLimitIn, IsLimitOf, IsLimit};
ghost use Rattle.price_ladder.specs.Tried.{IsExcludedIn, IsExcludedOf, IsExcluded};

use crate::Place;
use crate::ladder::Ladder;
use crate::sizes::try_place;
use instance_model::Instance;
use std::alloc::{AllocError, Global};

/// Tries the tails.
fn try_tails<L: Ladder>(
    alloc: Global,
    inst: &Instance,
    starts: &[u32],
    ladder: &mut L,
    target: i128,
) -> Result<bool, AllocError>
    requires prices { IsPriceList inst.now (L.list ladder.old) }
    requires kept { L.is_kept inst.now ladder.old }
    requires starts { AreAllowedStarts inst.now starts.now }
    requires root { HasStarts inst.now (root_box inst.now) }
    ensures tried { IfOk result (IsTried inst.now (L.list ladder.old) (L.list ladder.new) target
        (IsAnyTailStep inst.now starts.now (L.list ladder.old))) }
    ensures kept { OnOk result (L.is_kept inst.now ladder.new) }
{
    for t in 1..inst.periods() + 1 {
        if ladder.try_tail(alloc, inst, starts, t, target)? {
            return Ok(true);
        }
    }
    Ok(false)
}

/// Tries the prices on the limits of resource `c` in period `t`.
fn try_limits_in<L: Ladder>(
    alloc: Global,
    inst: &Instance,
    ladder: &mut L,
    c: u32,
    t: u32,
    target: i128,
) -> Result<bool, AllocError>
    requires prices { IsPriceList inst.now (L.list ladder.old) }
    requires kept { L.is_kept inst.now ladder.old }
    requires root { HasStarts inst.now (root_box inst.now) }
    requires resource { c < length inst.now.resource_names }
    requires from { 1 ≤ t }
    requires to { t ≤ inst.now.periods }
    ensures tried { IfOk result (IsTried inst.now (L.list ladder.old) (L.list ladder.new) target
        (IsStepAmong inst.now (IsLimitIn c t) (L.list ladder.old))) }
    ensures kept { OnOk result (L.is_kept inst.now ladder.new) }
{
    if try_place(alloc, inst, ladder, Place::Upper { c, t }, target)? {
        return Ok(true);
    }
    try_place(alloc, inst, ladder, Place::Lower { c, t }, target)
}

/// Tries the prices on the limits of resource `c`.
fn try_limits_of<L: Ladder>(
    alloc: Global,
    inst: &Instance,
    ladder: &mut L,
    c: u32,
    target: i128,
) -> Result<bool, AllocError>
    requires prices { IsPriceList inst.now (L.list ladder.old) }
    requires kept { L.is_kept inst.now ladder.old }
    requires root { HasStarts inst.now (root_box inst.now) }
    requires resource { c < length inst.now.resource_names }
    ensures tried { IfOk result (IsTried inst.now (L.list ladder.old) (L.list ladder.new) target
        (IsStepAmong inst.now (IsLimitOf inst.now c) (L.list ladder.old))) }
    ensures kept { OnOk result (L.is_kept inst.now ladder.new) }
{
    for t in 1..inst.periods() + 1 {
        if try_limits_in(alloc, inst, ladder, c, t, target)? {
            return Ok(true);
        }
    }
    Ok(false)
}

/// Tries the prices on the limits of all resources.
fn try_limits<L: Ladder>(
    alloc: Global,
    inst: &Instance,
    ladder: &mut L,
    target: i128,
) -> Result<bool, AllocError>
    requires prices { IsPriceList inst.now (L.list ladder.old) }
    requires kept { L.is_kept inst.now ladder.old }
    requires root { HasStarts inst.now (root_box inst.now) }
    ensures tried { IfOk result (IsTried inst.now (L.list ladder.old) (L.list ladder.new) target
        (IsStepAmong inst.now (IsLimit inst.now) (L.list ladder.old))) }
    ensures kept { OnOk result (L.is_kept inst.now ladder.new) }
{
    for c in 0..inst.resources() {
        if try_limits_of(alloc, inst, ladder, c, target)? {
            return Ok(true);
        }
    }
    Ok(false)
}

/// Tries the price of exclusion `e` in period `t`, if that belongs to its season.
fn try_exclusion_in<L: Ladder>(
    alloc: Global,
    inst: &Instance,
    ladder: &mut L,
    e: u32,
    t: u32,
    target: i128,
) -> Result<bool, AllocError>
    requires prices { IsPriceList inst.now (L.list ladder.old) }
    requires kept { L.is_kept inst.now ladder.old }
    requires root { HasStarts inst.now (root_box inst.now) }
    requires number { e < length inst.now.exclusion_names }
    requires from { 1 ≤ t }
    requires to { t ≤ inst.now.periods }
    ensures tried { IfOk result (IsTried inst.now (L.list ladder.old) (L.list ladder.new) target
        (IsStepAmong inst.now (IsExcludedIn inst.now e t) (L.list ladder.old))) }
    ensures kept { OnOk result (L.is_kept inst.now ladder.new) }
{
    if !inst.in_season(inst.exclusion(e).season, t) {
        return Ok(false);
    }
    try_place(alloc, inst, ladder, Place::Excluded { e, t }, target)
}

/// Tries the prices of exclusion `e`.
fn try_exclusion<L: Ladder>(
    alloc: Global,
    inst: &Instance,
    ladder: &mut L,
    e: u32,
    target: i128,
) -> Result<bool, AllocError>
    requires prices { IsPriceList inst.now (L.list ladder.old) }
    requires kept { L.is_kept inst.now ladder.old }
    requires root { HasStarts inst.now (root_box inst.now) }
    requires number { e < length inst.now.exclusion_names }
    ensures tried { IfOk result (IsTried inst.now (L.list ladder.old) (L.list ladder.new) target
        (IsStepAmong inst.now (IsExcludedOf inst.now e) (L.list ladder.old))) }
    ensures kept { OnOk result (L.is_kept inst.now ladder.new) }
{
    for t in 1..inst.periods() + 1 {
        if try_exclusion_in(alloc, inst, ladder, e, t, target)? {
            return Ok(true);
        }
    }
    Ok(false)
}

/// Tries the prices of all exclusions.
fn try_exclusions<L: Ladder>(
    alloc: Global,
    inst: &Instance,
    ladder: &mut L,
    target: i128,
) -> Result<bool, AllocError>
    requires prices { IsPriceList inst.now (L.list ladder.old) }
    requires kept { L.is_kept inst.now ladder.old }
    requires root { HasStarts inst.now (root_box inst.now) }
    ensures tried { IfOk result (IsTried inst.now (L.list ladder.old) (L.list ladder.new) target
        (IsStepAmong inst.now (IsExcluded inst.now) (L.list ladder.old))) }
    ensures kept { OnOk result (L.is_kept inst.now ladder.new) }
{
    for e in 0..inst.exclusions() {
        if try_exclusion(alloc, inst, ladder, e, target)? {
            return Ok(true);
        }
    }
    Ok(false)
}

/// Tries all ladder steps: those of tails first, then those of limits, then those of exclusions.
pub(crate) fn try_all<L: Ladder>(
    alloc: Global,
    inst: &Instance,
    starts: &[u32],
    ladder: &mut L,
    target: i128,
) -> Result<bool, AllocError>
    requires prices { IsPriceList inst.now (L.list ladder.old) }
    requires kept { L.is_kept inst.now ladder.old }
    requires starts { AreAllowedStarts inst.now starts.now }
    requires root { HasStarts inst.now (root_box inst.now) }
    ensures tried { IfOk result (IsTried inst.now (L.list ladder.old) (L.list ladder.new) target
        (IsLadderStep inst.now starts.now (L.list ladder.old))) }
    ensures kept { OnOk result (L.is_kept inst.now ladder.new) }
{
    if try_tails(alloc, inst, starts, ladder, target)? {
        return Ok(true);
    }
    if try_limits(alloc, inst, ladder, target)? {
        return Ok(true);
    }
    try_exclusions(alloc, inst, ladder, target)
}
