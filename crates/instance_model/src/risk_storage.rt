//! Counts of 10^-12 that are kept in 8 bytes each, and from a place on in 16.
ghost use Rattle.std.specs.Prelude.{◌≡◌, ◌+◌, ◌<◌, ◌≤◌, ◌⊎◌, [], ◌∷◌, ◌++◌, length, vec_capacity, vec_len};
ghost use Rattle.std.specs.Prelude.{IsOk, MatchOption, OnErr, OnOk, ◌^◌, unsigned_abs};
ghost use Rattle.std.specs.List.{slice_range};
ghost use Rattle.instance_model.specs.RiskLists.{IsSeamKept};
ghost use Rattle.instance_model.specs.RiskNumbers.{numbers_of};

use crate::risk_numbers::RiskNumbers;
use fixed_num::Fixed;
use std::alloc::AllocError;

/// Some numbers from a place to another. Places count through: the wide numbers stand behind the narrow ones.
pub(crate) fn part<'a>(
    narrow: &'a [i64],
    wide: &'a [Fixed],
    from: usize,
    to: usize,
) -> RiskNumbers<'a>
    requires start { from ≤ to }
    requires end { to ≤ length (narrow.now ++ wide.now) }
    requires apart { (to ≤ length narrow.now) ⊎ (length narrow.now ≤ from) }
    ensures { numbers_of result ≡ slice_range (narrow.now ++ wide.now) from to }
{
    let seam = narrow.len();
    if to <= seam {
        RiskNumbers::Narrow(&narrow[from..to])
    } else {
        RiskNumbers::Wide(&wide[from - seam..to - seam])
    }
}

/// Adds a number behind all. Where it is the first one that doesn't fit in 8 bytes, those from `first` on move to the
/// wide ones before it.
pub(crate) fn add_number(
    narrow: &mut Vec<i64>,
    wide: &mut Vec<Fixed>,
    first: usize,
    number: Fixed,
) -> Result<(), AllocError>
    requires { length wide.old.items ≡ 0 → first ≤ length narrow.old.items }
    ensures ok { OnOk result (narrow.new.items ++ wide.new.items
        ≡ (narrow.old.items ++ wide.old.items) ++ number ∷ []) }
    ensures err { OnErr result ((narrow.new.items ≡ narrow.old.items) × (wide.new.items ≡ wide.old.items)) }
    ensures seam { OnOk result (IsSeamKept narrow.old.items wide.old.items narrow.new.items wide.new.items
        ⊎ (length narrow.new.items ≡ first)) }
{
    if !wide.is_empty() {
        wide.push(number)?;
        return Ok(());
    }
    match narrowed(number) {
        Some(count) => {
            narrow.push(count)?;
            Ok(())
        }
        None => widen_from(narrow, wide, first, number),
    }
}

/// Adds counts behind all.
pub(crate) fn add_counts(
    narrow: &mut Vec<i64>,
    wide: &mut Vec<Fixed>,
    counts: &[i64],
) -> Result<(), AllocError>
    ensures ok { OnOk result (narrow.new.items ++ wide.new.items
        ≡ (narrow.old.items ++ wide.old.items) ++ counts.now) }
    ensures err { OnErr result ((narrow.new.items ≡ narrow.old.items) × (wide.new.items ≡ wide.old.items)) }
    ensures seam { OnOk result (IsSeamKept narrow.old.items wide.old.items narrow.new.items wide.new.items) }
{
    if wide.is_empty() {
        narrow.extend_from_slice(counts)
    } else {
        push_widened(wide, counts)
    }
}

/// Moves the counts from a place on to the wide numbers, of which there are none, and adds a number behind them.
fn widen_from(
    narrow: &mut Vec<i64>,
    wide: &mut Vec<Fixed>,
    first: usize,
    number: Fixed,
) -> Result<(), AllocError>
    requires place { first ≤ length narrow.old.items }
    requires none { wide.old.items ≡ [] }
    ensures ok { OnOk result (narrow.new.items ++ wide.new.items ≡ narrow.old.items ++ number ∷ []) }
    ensures seam { OnOk result (length narrow.new.items ≡ first) }
    ensures err { OnErr result ((narrow.new.items ≡ narrow.old.items) × (wide.new.items ≡ [])) }
{
    let moved = narrow.len() - first;
    wide.reserve(moved + 1)?;
    push_widened(wide, &narrow[first..])?;
    wide.push(number)?;
    narrow.truncate(first);
    Ok(())
}

/// Adds counts to the wide numbers. Memory for all of them is taken first.
fn push_widened(wide: &mut Vec<Fixed>, counts: &[i64]) -> Result<(), AllocError>
    ensures ok { OnOk result (wide.new.items ≡ wide.old.items ++ counts.now) }
    ensures err { OnErr result (wide.new.items ≡ wide.old.items) }
    ensures capacity { vec_capacity wide.old ≤ vec_capacity wide.new }
    ensures succeeds { vec_len wide.old + length counts.now ≤ vec_capacity wide.old → IsOk result }
{
    wide.reserve(counts.len())?;
    for count in counts {
        wide.push(Fixed::from(*count))?;
    }
    Ok(())
}

/// A number in 8 bytes, if it fits.
fn narrowed(number: Fixed) -> Option<i64>
    ensures { MatchOption result (2 ^ 63 ≤ unsigned_abs number) (λ count. count ≡ number) }
{
    i64::try_from(number.count()).ok()
}
