//! A row of scenario sums as a vector in order: contracts see the list of the sums.
ghost use Rattle.std.specs.Prelude.{◌≡◌, ◌≢◌, ◌+◌, ◌-◌, ◌<◌, ◌≤◌, take, drop, length, IfOk, slice_set, slice_index_or};
ghost use Rattle.std.specs.Prelude.{count_by, vec_len};
ghost use Rattle.std.specs.Prelude.{vec_capacity};
ghost use Rattle.quantile_index.specs.Order.{AllEntries, IsBefore, IsOrdered, Inserts};
ghost use Rattle.quantile_index.specs.Ranking.{IsRanking, has_scenario};

use crate::entry::{Entry, is_before};
use crate::ranks::{rank, write_entries};
use crate::row::Row;
use fixed_num::{Steps, Sum};
use std::alloc::{AllocError, Global};
use std::marker::{Brand, Model};
use std::sync::ledger::{Blank, Ledger};

/// A row as a vector of entries in order, beside the sums by scenario and room to bring all of them into order at once.
/// Nothing is claimed of its steps.
#[derive(Drop)]
pub struct FlatRow {
    sums: Vec<Sum>,
    entries: Vec<Entry>,
    keys: Vec<i128>,
    narrow: Vec<u64>,
}

impl Model for FlatRow {
    ghost use Rattle.std.specs.Prelude.{ℤ, List, length};
    ghost use Rattle.quantile_index.specs.Ranking.{IsRow};

    ghost Value = { List ℤ };

    ghost view = { λ r. r.sums.items };

    ghost invariant = { λ r. IsRow r.entries.items r.sums.items (length r.keys.items) (length r.narrow.items) };
}

/// Where the entry of scenario `k` is.
fn place_of(entries: &[Entry], k: u32) -> usize
    requires { 0 < count_by (has_scenario k) entries.now }
    ensures within { result < length entries.now }
    ensures found { (d : _) → (slice_index_or entries.now result d).scenario ≡ k }
{
    for (i, entry) in entries.iter().enumerate() {
        if entry.scenario == k {
            return i;
        }
    }
    unreachable!()
}

/// Where a new entry goes: behind those that are before it.
fn place_for<L: Ledger>(entries: &[Entry], new: &Entry, steps: &mut Steps<L>) -> usize
    requires ordered { IsOrdered entries.now }
    requires new { AllEntries (λ e. e ≢ new.now) entries.now }
    ensures within { result ≤ length entries.now }
    ensures below { AllEntries (λ e. IsBefore e new.now) (take result entries.now) }
    ensures above { AllEntries (λ e. IsBefore new.now e) (drop result entries.now) }
    ensures forward { steps.old ≤ steps.new }
{
    for (i, entry) in entries.iter().enumerate() {
        if is_before(new, entry, steps) {
            return i;
        }
    }
    entries.len()
}

/// Takes the entry of scenario `k` out.
fn take_out(entries: &mut Vec<Entry>, k: u32) -> Entry
    requires { 0 < count_by (has_scenario k) entries.old.items }
    ensures scenario { result.scenario ≡ k }
    ensures removed { Inserts result entries.new.items entries.old.items }
    ensures len { vec_len entries.new + 1 ≡ vec_len entries.old }
    ensures room { vec_len entries.new < vec_capacity entries.new }
{
    let place = place_of(entries, k);
    entries.remove(place)
}

/// Puts a new entry in at its place. There is room for it.
fn put_in<L: Ledger>(entries: &mut Vec<Entry>, new: Entry, steps: &mut Steps<L>)
    requires ordered { IsOrdered entries.old.items }
    requires new { AllEntries (λ e. e ≢ new) entries.old.items }
    requires room { vec_len entries.old < vec_capacity entries.old }
    ensures inserted { Inserts new entries.old.items entries.new.items }
    ensures ordered { IsOrdered entries.new.items }
    ensures len { vec_len entries.new ≡ vec_len entries.old + 1 }
    ensures capacity { vec_capacity entries.old ≤ vec_capacity entries.new }
    ensures forward { steps.old ≤ steps.new }
{
    let place = place_for(entries, &new, steps);
    match entries.insert(place, new) {
        Ok(()) => {}
        Err(_) => unreachable!(),
    }
}

/// Changes the sum of scenario `k`, in the entries and by scenario.
fn change<L: Ledger>(
    entries: &mut Vec<Entry>,
    sums: &mut [Sum],
    k: u32,
    sum: Sum,
    steps: &mut Steps<L>,
)
    requires ranking { IsRanking entries.old.items sums.old }
    requires first { 1 ≤ k }
    requires last { k ≤ length sums.old }
    ensures sums { sums.new ≡ slice_set sums.old (k - 1) sum }
    ensures ranking { IsRanking entries.new.items sums.new }
    ensures forward { steps.old ≤ steps.new }
{
    let _old = take_out(entries, k);
    put_in(entries, Entry { sum, scenario: k }, steps);
    sums[(k - 1) as usize] = sum;
}

/// The entries of the sums in order. Steps are counted on a counter of its own.
fn ranked<L: Ledger>(alloc: Global, from: &[Sum], blank: Blank) -> Result<Vec<Entry>, AllocError>
    requires name { blank.name ≡ L.name }
    requires parts { blank.parts ≡ L.parts }
    requires one { blank.parts ≡ 1 }
    requires few { length from.now ≤ 1024 }
    ensures { IfOk result (λ entries. IsRanking entries.items from.now) }
{
    let mut steps = Steps::<L>::zero(blank);
    let mut entries = Vec::with_capacity(alloc, from.len())?;
    for (i, sum) in from.iter().enumerate() {
        let new = Entry {
            sum: *sum,
            scenario: i as u32 + 1,
        };
        put_in(&mut entries, new, &mut steps);
    }
    Ok(entries)
}

impl Row for FlatRow {
    ghost use Rattle.std.specs.Prelude.{None};

    ghost sums = { λ r. r };

    ghost most = { None };

    fn make(alloc: Global, from: &[Sum]) -> Result<FlatRow, AllocError> {
        let entries = ranked::<Brand>(alloc, from, Blank::new(1))?;
        let sums = Vec::from_slice(alloc, from)?;
        let keys = vec![in alloc; 0; from.len()]?;
        let narrow = vec![in alloc; 0; from.len()]?;
        Ok(FlatRow {
            sums,
            entries,
            keys,
            narrow,
        })
    }

    fn len(&self) -> u32 {
        self.sums.len() as u32
    }

    fn get(&self, k: u32) -> Sum {
        self.sums[(k - 1) as usize]
    }

    fn replace<L: Ledger>(&mut self, k: u32, sum: Sum, steps: &mut Steps<L>) {
        change(&mut self.entries, &mut self.sums, k, sum, steps);
    }

    fn replace_all<L: Ledger>(&mut self, from: &[Sum], steps: &mut Steps<L>) {
        rank(from, &mut self.keys, &mut self.narrow, steps);
        write_entries(from, &self.keys, &mut self.entries);
        self.sums.copy_from_slice(from);
    }

    fn kth<L: Ledger>(&self, m: u32, steps: &mut Steps<L>) -> Sum {
        let _ = steps;
        self.entries[(m - 1) as usize].sum
    }

    ghost grows = { tt };
}
