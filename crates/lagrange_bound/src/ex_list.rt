//! Prices of exclusions in strict order: where one stands or belongs, and changes at a place.
ghost use Rattle.std.specs.Prelude.{◌≡◌, ◌≤◌, ◌<◌, ◌↔◌, ◌&&◌, ◌==◌, not, vec_len, IfOk, IfErr, IsOk, IsTrue, is_ok};
ghost use Rattle.std.specs.Prelude.{AllPairs, slice_set, if◌then◌else◌};
ghost use Rattle.std.specs.List.{insert, remove};
ghost use Rattle.lagrange_bound.specs.Prices.{ExBefore};
ghost use Rattle.lagrange_bound.specs.ExLists.{PairBefore, StandsAt, BelongsAt};

use crate::ExPrice;
use std::alloc::AllocError;

/// Whether an exclusion and a period stand before two others.
fn is_before(d: u32, u: u32, e: u32, t: u32) -> bool
    ensures { IsTrue result ↔ PairBefore d u e t }
{
    d < e || (d == e && u < t)
}

/// The place of the price of exclusion `e` in period `t`, or, where there is none,
/// the place where it belongs. By bisection.
pub(crate) fn ex_place(ex: &[ExPrice], e: u32, t: u32) -> Result<usize, usize>
    requires { AllPairs ExBefore ex.now }
    ensures found { IfOk result (StandsAt ex.now e t) }
    ensures missing { IfErr result (BelongsAt ex.now e t) }
{
    let mut low = 0;
    let mut high = ex.len();
    while low < high {
        let middle = low + (high - low) / 2;
        let x = &ex[middle];
        let exclusion = x.exclusion;
        let period = x.period;
        if is_before(exclusion, period, e, t) {
            low = middle + 1;
        } else if is_before(e, t, exclusion, period) {
            high = middle;
        } else {
            return Ok(middle);
        }
    }
    Err(low)
}

/// Puts another price in place of one, or takes it out where the new one is 0.
pub(crate) fn replace_at(ex: &mut Vec<ExPrice>, place: usize, x: ExPrice)
    requires { place < vec_len ex.old }
    ensures { ex.new.items ≡ (if x.value == 0 then remove ex.old.items place else slice_set ex.old.items place x) }
{
    if x.value == 0 {
        ex.remove(place);
    } else {
        ex[place] = x;
    }
}

/// Inserts a price that isn't 0.
pub(crate) fn insert_at(ex: &mut Vec<ExPrice>, place: usize, x: ExPrice) -> Result<(), AllocError>
    requires { place ≤ vec_len ex.old }
    ensures inserted { ex.new.items
        ≡ (if is_ok result && not (x.value == 0) then insert ex.old.items place x else ex.old.items) }
    ensures zero { x.value ≡ 0 → IsOk result }
{
    if x.value != 0 {
        ex.insert(place, x)?;
    }
    Ok(())
}
