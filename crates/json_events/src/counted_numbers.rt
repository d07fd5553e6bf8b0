//! Numbers of a list, one behind another, each with the comma behind it.

ghost use Rattle.std.specs.Prelude.{◌≡◌, ◌≤◌, [], length, IfSome, pos};
ghost use Rattle.std.specs.List.{prefix_len};
ghost use Rattle.json_grammar.specs.laws.Machine.{is_blank};
ghost use Rattle.json_events.specs.CountedNumbers.{IsCountedItem, IsCountedRun, AreCountedRuns};

use crate::counted_number::{CountedRun, counted_number};
use crate::number_lanes::counted_by_lanes;
use arrayvec::ArrayVec;
use json_machine::blank_count;

/// How many numbers are read in one go at most.
pub const MOST_COUNTS: usize = 64;

/// How many bytes in front are an item of a list with the blanks before it and the comma behind it, and its count of
/// 10^-12.
#[derive(Clone, Copy, Drop)]
struct CountedItem {
    length: usize,
    count: i64,
}

/// Puts the counts of the numbers in front, at most so many, into the empty list, and answers how many bytes they have
/// with the blanks before each and the comma behind each.
pub(crate) fn counted_numbers(
    bytes: &[u8],
    most: usize,
    counts: &mut ArrayVec<i64, MOST_COUNTS>,
) -> usize
    requires { counts.old.items ≡ [] }
    ensures runs { AreCountedRuns bytes.now counts.new.items result }
    ensures within { result ≤ length bytes.now }
    ensures few { length counts.new.items ≤ most }
{
    let mut used = 0;
    while counts.len() < most && !counts.is_full() {
        let Some(item) = counted_item(&bytes[used..]) else {
            return used;
        };
        counts.push(item.count);
        used += item.length;
    }
    used
}

/// The number in front, where its count is less than 2^63.
#[inline]
fn counted_item(bytes: &[u8]) -> Option<CountedItem>
    ensures { IfSome result (λ item. IsCountedItem bytes.now item.length item.count) }
{
    let blanks = blanks_in_front(bytes);
    let run = number_in_front(&bytes[blanks..])?;
    if run.size > i64::MAX as u64 {
        return None;
    }
    Some(CountedItem {
        length: blanks + run.length + 1,
        count: run.size as i64,
    })
}

/// The same number without the bound, by lanes where that does.
#[inline]
fn number_in_front(bytes: &[u8]) -> Option<CountedRun>
    ensures { IfSome result (λ run. IsCountedRun bytes.now run.length (pos run.size)) }
{
    if bytes.len() >= 32 {
        if let Some(run) = counted_by_lanes(bytes) {
            return Some(run);
        }
    }
    counted_number(bytes)
}

/// How many blanks the bytes begin with: mostly there is one, before a digit.
#[inline]
fn blanks_in_front(bytes: &[u8]) -> usize
    ensures count { result ≡ prefix_len is_blank bytes.now }
    ensures within { result ≤ length bytes.now }
{
    if bytes.len() > 1 && bytes[0] == b' ' && bytes[1].is_ascii_digit() {
        return 1;
    }
    blank_count(bytes)
}
