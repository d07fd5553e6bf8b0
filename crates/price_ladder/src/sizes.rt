//! The steps at one place: by each power of ten, up and down. The two stand apart, as one ends at the greatest price
//! and the other at 0.
ghost use Rattle.std.specs.Prelude.{◌≤◌, IfOk, OnOk};
ghost use Rattle.lagrange_bound.specs.Prices.{IsPriceList};
ghost use Rattle.lagrange_bound.specs.Boxes.{HasStarts};
ghost use Rattle.certificate_tree.specs.Trees.{root_box};
ghost use Rattle.price_ladder.specs.Places.{IsPlace};
ghost use Rattle.price_ladder.specs.Steps.{IsStepAt};
ghost use Rattle.price_ladder.specs.Tried.{IsTried, IsMoreBy, IsLessBy, IsChangedBy};

use crate::Place;
use crate::ladder::Ladder;
use crate::place::value_at;
use instance_model::Instance;
use std::alloc::{AllocError, Global};

/// The greatest price.
const MOST: u32 = 1_000_000_000;

/// Tries a number that is greater by a size.
fn try_more<L: Ladder>(
    alloc: Global,
    inst: &Instance,
    ladder: &mut L,
    place: Place,
    size: u32,
    target: i128,
) -> Result<bool, AllocError>
    requires prices { IsPriceList inst.now (L.list ladder.old) }
    requires kept { L.is_kept inst.now ladder.old }
    requires starts { HasStarts inst.now (root_box inst.now) }
    requires place { IsPlace inst.now place }
    requires small { size ≤ 1_000_000_000 }
    ensures tried { IfOk result (IsTried inst.now (L.list ladder.old) (L.list ladder.new) target
        (IsMoreBy inst.now place size (L.list ladder.old))) }
    ensures kept { OnOk result (L.is_kept inst.now ladder.new) }
{
    let before = value_at(inst, ladder.prices(), place);
    if before + size > MOST {
        return Ok(false);
    }
    ladder.try_value(alloc, inst, place, before + size, target)
}

/// Tries a number that is less by a size.
fn try_less<L: Ladder>(
    alloc: Global,
    inst: &Instance,
    ladder: &mut L,
    place: Place,
    size: u32,
    target: i128,
) -> Result<bool, AllocError>
    requires prices { IsPriceList inst.now (L.list ladder.old) }
    requires kept { L.is_kept inst.now ladder.old }
    requires starts { HasStarts inst.now (root_box inst.now) }
    requires place { IsPlace inst.now place }
    ensures tried { IfOk result (IsTried inst.now (L.list ladder.old) (L.list ladder.new) target
        (IsLessBy inst.now place size (L.list ladder.old))) }
    ensures kept { OnOk result (L.is_kept inst.now ladder.new) }
{
    let before = value_at(inst, ladder.prices(), place);
    if before < size {
        return Ok(false);
    }
    ladder.try_value(alloc, inst, place, before - size, target)
}

/// Tries both.
fn try_size<L: Ladder>(
    alloc: Global,
    inst: &Instance,
    ladder: &mut L,
    place: Place,
    size: u32,
    target: i128,
) -> Result<bool, AllocError>
    requires prices { IsPriceList inst.now (L.list ladder.old) }
    requires kept { L.is_kept inst.now ladder.old }
    requires starts { HasStarts inst.now (root_box inst.now) }
    requires place { IsPlace inst.now place }
    requires small { size ≤ 1_000_000_000 }
    ensures tried { IfOk result (IsTried inst.now (L.list ladder.old) (L.list ladder.new) target
        (IsChangedBy inst.now place size (L.list ladder.old))) }
    ensures kept { OnOk result (L.is_kept inst.now ladder.new) }
{
    if try_more(alloc, inst, ladder, place, size, target)? {
        return Ok(true);
    }
    try_less(alloc, inst, ladder, place, size, target)
}

/// Tries each power of ten at a place.
pub(crate) fn try_place<L: Ladder>(
    alloc: Global,
    inst: &Instance,
    ladder: &mut L,
    place: Place,
    target: i128,
) -> Result<bool, AllocError>
    requires prices { IsPriceList inst.now (L.list ladder.old) }
    requires kept { L.is_kept inst.now ladder.old }
    requires starts { HasStarts inst.now (root_box inst.now) }
    requires place { IsPlace inst.now place }
    ensures tried { IfOk result (IsTried inst.now (L.list ladder.old) (L.list ladder.new) target
        (IsStepAt inst.now (L.list ladder.old) place)) }
    ensures kept { OnOk result (L.is_kept inst.now ladder.new) }
{
    for exponent in 0..9u32 {
        let size = 10u32.pow(exponent);
        if try_size(alloc, inst, ladder, place, size, target)? {
            return Ok(true);
        }
    }
    Ok(false)
}
