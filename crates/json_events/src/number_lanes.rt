//! Short numbers read by lanes: sixteen bytes are tested at once, and up to eight digits are read at once.

ghost use Rattle.std.specs.Prelude.{◌≡◌, ℕ, ◌<◌, ◌≤◌, List, length, take, drop, get_or, IfSome, IsTrue, ◌↔◌, pos};
ghost use Rattle.std.specs.Int.Digits.{AllBelowBase, number_from_digits};
ghost use Rattle.std.specs.Simd.Lanes.{number_l};
ghost use Rattle.decimal_numbers.specs.Decimal.{number_from};
ghost use Rattle.json_grammar.specs.Token.{digit_count};
ghost use Rattle.json_events.specs.CountedNumbers.{IsWhole, IsCountedRun, other_mask};

use crate::counted_number::{CountedRun, MOST_WHOLE, PLACES};
use decimal_numbers::power_of_ten;
use std::simd::prelude::*;

/// How many digits may stand behind the point here: those that are read at once.
const MOST_PLACES: usize = 8;

/// The count of 1.
const ONE: u64 = 1_000_000_000_000;

/// The number in front that is told by its count, where a comma follows it and it has at most 8 digits behind its
/// point. `None` says nothing.
#[inline]
pub(crate) fn counted_by_lanes(bytes: &[u8]) -> Option<CountedRun>
    requires { 32 ≤ length bytes.now }
    ensures { IfSome result (λ run. IsCountedRun bytes.now run.length (pos run.size)) }
{
    let others = other_mask(bytes);
    let whole = digits_from(others, 0);
    if !may_be_whole(bytes, whole) {
        return None;
    }
    let value = whole_number(bytes, whole);
    match bytes[whole] {
        b',' => Some(CountedRun {
            length: whole,
            size: value * ONE,
        }),
        b'.' => fraction_by_lanes(bytes, others, whole, value),
        _ => None,
    }
}

/// The same, where the digits before its point are read.
#[inline]
fn fraction_by_lanes(bytes: &[u8], others: u64, whole: usize, value: u64) -> Option<CountedRun>
    requires room { 32 ≤ length bytes.now }
    requires mask { others ≡ other_mask bytes.now }
    requires whole { IsWhole bytes.now whole value }
    ensures { IfSome result (λ run. IsCountedRun bytes.now run.length (pos run.size)) }
{
    let places = digits_from(others, whole + 1);
    if places == 0 || places > MOST_PLACES {
        return None;
    }
    let length = whole + 1 + places;
    if bytes[length] != b',' {
        return None;
    }
    let fraction = eight_digits(&bytes[whole + 1..], places);
    Some(CountedRun {
        length,
        size: value * ONE + fraction * power_of_ten(PLACES - places),
    })
}

/// Whether so many digits in front may stand before a point: some, but few, and no zero before others.
#[inline]
fn may_be_whole(bytes: &[u8], count: usize) -> bool
    requires { 0 < length bytes.now }
    ensures { IsTrue result ↔ ((0 < count) × (count ≤ 7) × (get_or bytes.now 0 0 ≡ 48 → count ≡ 1)) }
{
    count > 0 && count <= MOST_WHOLE && (count == 1 || bytes[0] != b'0')
}

/// The number that the digits before the point write. It mostly has one.
#[inline]
fn whole_number(bytes: &[u8], count: usize) -> u64
    requires room { 8 ≤ length bytes.now }
    requires some { 1 ≤ count }
    requires few { count ≤ 8 }
    requires digits { count ≤ digit_count bytes.now }
    ensures { result ≡ number_from 0 (take count bytes.now) }
{
    if count == 1 {
        (bytes[0] - b'0') as u64
    } else {
        eight_digits(bytes, count)
    }
}

/// A bit for each of the first 16 bytes, which says whether the byte isn't a digit.
#[inline]
fn other_mask(bytes: &[u8]) -> u64
    requires { 16 ≤ length bytes.now }
    ensures { result ≡ other_mask bytes.now }
{
    let lanes = u8x16::from_slice(bytes) - u8x16::splat(b'0');
    lanes.simd_ge(u8x16::splat(10)).to_bitmask()
}

/// How many digits stand from one of the first 16 bytes on, where another byte of these ends them; else 64.
#[inline]
fn digits_from(others: u64, from: usize) -> usize
    requires { from < 64 }
    ensures { (bytes : List ℕ) → others ≡ other_mask bytes → result < 64 → result ≡ digit_count (drop from bytes) }
{
    (others >> from).trailing_zeros() as usize
}

/// The number that the first digits write, so many.
#[inline]
fn eight_digits(bytes: &[u8], count: usize) -> u64
    requires room { 8 ≤ length bytes.now }
    requires some { 1 ≤ count }
    requires few { count ≤ 8 }
    requires digits { count ≤ digit_count bytes.now }
    ensures { result ≡ number_from 0 (take count bytes.now) }
{
    let word = u64::from_le_bytes([
        bytes[0], bytes[1], bytes[2], bytes[3], bytes[4], bytes[5], bytes[6], bytes[7],
    ]);
    let digits = (word ^ 0x3030_3030_3030_3030) << (64 - 8 * count);
    value_of_eight(digits)
}

/// The number that eight digits write, the first of them in the lowest byte.
#[inline]
fn value_of_eight(word: u64) -> u64
    ensures { (digits : List ℕ) → length digits ≡ 8 → AllBelowBase 10 digits → word ≡ number_l 256 digits
        → result ≡ number_from_digits 10 digits }
{
    let pairs = word.wrapping_mul(10).wrapping_add(word >> 8);
    let first = (pairs & 0x0000_00ff_0000_00ff).wrapping_mul(100 + (1_000_000 << 32));
    let second = ((pairs >> 16) & 0x0000_00ff_0000_00ff).wrapping_mul(1 + (10_000 << 32));
    first.wrapping_add(second) >> 32
}
