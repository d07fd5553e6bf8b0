//! Whether a refined price list prices alike with others.
ghost use Rattle.std.specs.Prelude.{◌≡◌, ◌↔◌, ◌∷◌, map, All, Any, IfOk, IsTrue};
ghost use Rattle.refined_prices.specs.RefinedLists.{IsRefinedList, zero_refined};
ghost use Rattle.refined_search.specs.Alike.{PriceAlike};
ghost use Rattle.refined_search.specs.Steps.{AreRowsOf};

use instance_model::Instance;
use refined_prices::{RefinedPrices, refined_rows};
use std::alloc::{AllocError, Global};

/// Whether rows and a constant are those of a list. Takes memory for a table.
fn has_rows(
    alloc: Global,
    inst: &Instance,
    list: &RefinedPrices,
    rows: &[Vec<Option<i128>>],
    constant: i128,
) -> Result<bool, AllocError>
    requires { IsRefinedList inst.now list.now }
    ensures { IfOk result
        (λ same. IsTrue same ↔ AreRowsOf inst.now list.now (map (λ row. row.items) rows.now) constant) }
{
    let (others, other) = refined_rows(alloc, inst, list)?;
    if constant != other {
        return Ok(false);
    }
    Ok(are_same_rows(rows, others.as_slice()))
}

/// Whether two rows are the same.
fn is_same_row(a: &[Option<i128>], b: &[Option<i128>]) -> bool
    ensures { IsTrue result ↔ (a.now ≡ b.now) }
{
    a == b
}

/// Whether two tables have the same rows.
fn are_same_rows(a: &[Vec<Option<i128>>], b: &[Vec<Option<i128>>]) -> bool
    ensures { IsTrue result ↔ (map (λ row. row.items) a.now ≡ map (λ row. row.items) b.now) }
{
    if a.len() != b.len() {
        return false;
    }
    for k in 0..a.len() {
        if !is_same_row(a[k].as_slice(), b[k].as_slice()) {
            return false;
        }
    }
    true
}

/// Whether rows and a constant are those of the list of zeros. Takes memory for a table.
fn are_rows_of_zeros(
    alloc: Global,
    inst: &Instance,
    rows: &[Vec<Option<i128>>],
    constant: i128,
) -> Result<bool, AllocError>
    ensures { IfOk result (λ same. IsTrue same
        ↔ AreRowsOf inst.now (zero_refined inst.now) (map (λ row. row.items) rows.now) constant) }
{
    let zero = RefinedPrices::zero(alloc, inst)?;
    has_rows(alloc, inst, &zero, rows, constant)
}

/// Whether the list of zeros or one of some lists prices alike with this one. Takes memory for two tables.
pub(crate) fn has_alike(
    alloc: Global,
    inst: &Instance,
    lists: &[RefinedPrices],
    list: &RefinedPrices,
) -> Result<bool, AllocError>
    requires lists { All (IsRefinedList inst.now) lists.now }
    requires list { IsRefinedList inst.now list.now }
    ensures { IfOk result (λ found. IsTrue found
        ↔ Any (λ other. PriceAlike inst.now other list.now) (zero_refined inst.now ∷ lists.now)) }
{
    let (rows, constant) = refined_rows(alloc, inst, list)?;
    if are_rows_of_zeros(alloc, inst, rows.as_slice(), constant)? {
        return Ok(true);
    }
    for other in lists {
        if has_rows(alloc, inst, other, rows.as_slice(), constant)? {
            return Ok(true);
        }
    }
    Ok(false)
}
