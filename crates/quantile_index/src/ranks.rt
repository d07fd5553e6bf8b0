//! Sums brought into order all at once: contracts see numbers that each stand for a sum and its scenario.
ghost use Rattle.std.specs.Prelude.{◌≡◌, true, ◌+◌, ◌^◌, ◌<◌, ◌≤◌, ◌≤ℤ◌, map, length, All, unsigned_abs, IfSome};
ghost use Rattle.std.specs.List.Sorted.{IsPermutation, IsSortedBy};
ghost use Rattle.quantile_index.specs.SortKeys.{key_of, entry_of, place_of, IsKeyIn, key_above, key_less};
ghost use Rattle.quantile_index.specs.Ranking.{numbered, IsRanking};

use crate::entry::Entry;
use fixed_num::{Steps, Sum};
use std::sync::ledger::Ledger;

/// How many scenarios a row may have: a key is so many times its sum, and the place of its scenario.
const MOST: i128 = 1024;

/// How many numbers of 64 bits there are.
const NARROW: i128 = 18_446_744_073_709_551_616;

/// More than any key.
const ABOVE_ALL: i128 = 1_000_000_000_000_000_000_000_000_000_000;

/// The key of a sum with this value whose scenario is at this place.
fn key_at(value: i128, place: usize) -> i128
    requires value { unsigned_abs value < 10 ^ 24 }
    requires place { place < 1024 }
    ensures key { result ≡ key_of value place }
    ensures small { unsigned_abs result < 10 ^ 30 }
{
    value * MOST + place as i128
}

/// Reads each sum, in a step, and writes its key, which orders as its value does, then its scenario.
fn read_keys<L: Ledger>(from: &[Sum], keys: &mut [i128], steps: &mut Steps<L>)
    requires each { length keys.old ≡ length from.now }
    requires few { length from.now ≤ 1024 }
    ensures entries { map entry_of keys.new ≡ numbered 1 from.now }
    ensures read { All (IsKeyIn from.now) keys.new }
    ensures each { length keys.new ≡ length from.now }
    ensures cost { steps.new ≡ steps.old + length from.now }
{
    for (i, sum) in from.iter().enumerate() {
        keys[i] = key_at(sum.value(steps), i);
    }
}

/// The place of the scenario of a key.
fn place_in(key: i128) -> usize
    ensures value { result ≡ place_of key }
    ensures few { result < 1024 }
{
    key.rem_euclid(MOST) as usize
}

/// The least of the keys.
fn least_of(keys: &[i128]) -> i128
    requires { All (λ key. unsigned_abs key < 10 ^ 30) keys.now }
    ensures least { All (λ key. result ≤ℤ key) keys.now }
    ensures small { unsigned_abs result ≤ 10 ^ 30 }
{
    let mut least = ABOVE_ALL;
    for key in keys {
        if *key < least {
            least = *key;
        }
    }
    least
}

/// How far a key is above the least; none where that number hasn't 64 bits.
fn above_least(key: i128, least: i128) -> Option<u64>
    requires key { unsigned_abs key < 10 ^ 30 }
    requires small { unsigned_abs least ≤ 10 ^ 30 }
    requires least { least ≤ℤ key }
    ensures { IfSome result (λ above. key ≡ key_above least above) }
{
    let above = key - least;
    if above < NARROW {
        Some(above as u64)
    } else {
        None
    }
}

/// The key that is so far above the least.
fn key_over(least: i128, above: u64) -> i128
    requires { unsigned_abs least ≤ 10 ^ 30 }
    ensures { result ≡ key_above least above }
{
    least + above as i128
}

/// Writes how far each key is above the least, and tells whether all of these numbers have 64 bits.
fn narrow_keys(keys: &[i128], least: i128, narrow: &mut [u64]) -> bool
    requires each { length narrow.old ≡ length keys.now }
    requires keys { All (λ key. unsigned_abs key < 10 ^ 30) keys.now }
    requires small { unsigned_abs least ≤ 10 ^ 30 }
    requires least { All (λ key. least ≤ℤ key) keys.now }
    ensures each { length narrow.new ≡ length narrow.old }
    ensures above { result ≡ true → keys.now ≡ map (key_above least) narrow.new }
{
    for (i, key) in keys.iter().enumerate() {
        match above_least(*key, least) {
            Some(above) => narrow[i] = above,
            None => return false,
        }
    }
    true
}

/// Writes the keys that are so far above the least.
fn widen_keys(narrow: &[u64], least: i128, keys: &mut [i128])
    requires each { length keys.old ≡ length narrow.now }
    requires small { unsigned_abs least ≤ 10 ^ 30 }
    ensures { keys.new ≡ map (key_above least) narrow.now }
{
    for (i, above) in narrow.iter().enumerate() {
        keys[i] = key_over(least, *above);
    }
}

/// Sorts the keys. Where 64 bits say how far each is above the least, these numbers are sorted in their place: a
/// processor compares two of them at once.
fn sort_keys(keys: &mut [i128], narrow: &mut [u64])
    requires each { length narrow.old ≡ length keys.old }
    requires small { All (λ key. unsigned_abs key < 10 ^ 30) keys.old }
    ensures permutation { IsPermutation keys.old keys.new }
    ensures sorted { IsSortedBy key_less keys.new }
    ensures each { length narrow.new ≡ length narrow.old }
{
    let least = least_of(keys);
    if narrow_keys(keys, least, narrow) {
        narrow.sort_unstable();
        widen_keys(narrow, least, keys);
    } else {
        keys.sort_unstable();
    }
}

/// Brings the sums into order. Each is read once, in a step; the sort compares numbers that were made of them.
pub fn rank<L: Ledger>(from: &[Sum], keys: &mut [i128], narrow: &mut [u64], steps: &mut Steps<L>)
    requires each { length keys.old ≡ length from.now }
    requires narrow { length narrow.old ≡ length from.now }
    requires few { length from.now ≤ 1024 }
    ensures ranking { IsRanking (map entry_of keys.new) from.now }
    ensures read { All (IsKeyIn from.now) keys.new }
    ensures each { length keys.new ≡ length from.now }
    ensures narrow { length narrow.new ≡ length from.now }
    ensures cost { steps.new ≡ steps.old + length from.now }
{
    read_keys(from, keys, steps);
    sort_keys(keys, narrow);
}

/// The entry of a key of these sums.
pub fn entry_at(from: &[Sum], key: &i128) -> Entry
    requires { IsKeyIn from.now key.now }
    ensures { result ≡ entry_of key.now }
{
    let place = place_in(*key);
    Entry {
        sum: from[place],
        scenario: place as u32 + 1,
    }
}

/// Writes the entries of keys of these sums.
pub fn write_entries(from: &[Sum], keys: &[i128], entries: &mut [Entry])
    requires each { length entries.old ≡ length keys.now }
    requires read { All (IsKeyIn from.now) keys.now }
    ensures { entries.new ≡ map entry_of keys.now }
{
    for (i, key) in keys.iter().enumerate() {
        entries[i] = entry_at(from, key);
    }
}
