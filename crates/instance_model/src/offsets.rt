//! Which starts are allowed, and where the entries of each start stand in a list over all of them.
ghost use Rattle.std.specs.Prelude.{◌≡◌, ℕ, ◌+◌, ◌-◌, ◌*◌, ◌<◌, ◌≤◌, ◌^◌, length, IfOk, IsTrue, slice_index};
ghost use Rattle.std.specs.Prelude.{slice_index_or, All, []};
ghost use Rattle.instance_model.specs.Naturals.{count_sum};
ghost use Rattle.instance_model.specs.Tables.{allowed_of, tmax, entries_at, entries_of, scenarios_before};
ghost use Rattle.instance_model.specs.Tables.{periods_before};
ghost use Rattle.instance_model.specs.Fitting.{IsFitting};
ghost use Rattle.instance_model.specs.View.{tables_of, rows_of, column_at, IsColumn, IsColumnOf, AreRowPlaces};
ghost use Rattle.instance_model.specs.View.{AreOffsets, AreSums};

use crate::parts::Parts;
use std::alloc::{AllocError, Global};

/// Where the entries of each start stand in a list by intervention, allowed start and period of the run.
#[derive(Drop)]
pub struct Offsets {
    /// How many entries of a whole horizon stand before each period, and before its end.
    pub before: Vec<usize>,
    /// How many entries stand before those of each intervention and start.
    pub places: Vec<Vec<usize>>,
}

/// Whether a start is one of those with these durations, and its run ends within the horizon.
#[tactic(auto, using(std::proofs::lemmas::Bool::Decides::nat_tests), unfolding(crate::specs::Tables::allowed_of))]
pub fn is_allowed_in(periods: u32, durations: &[u32], s: u32) -> bool
    requires { periods ≤ 512 }
    ensures value { result ≡ allowed_of periods durations.now s }
    ensures start { IsTrue result → 1 ≤ s }
    ensures among { IsTrue result → s ≤ length durations.now }
    ensures ends { IsTrue result → s + slice_index durations.now (s - 1) ≤ periods + 1 }
{
    if s == 0 || s as usize > durations.len() {
        return false;
    }
    let duration = durations[s as usize - 1];
    s as u64 + duration as u64 <= periods as u64 + 1
}

/// How many of the counts stand before each one, and before the end.
fn sums_before(alloc: Global, counts: &[u32]) -> Result<Vec<usize>, AllocError>
    requires short { length counts.now ≤ 512 }
    requires small { All (λ n. (1 ≤ n) × (n ≤ 1024)) counts.now }
    ensures { IfOk result (λ v. AreSums counts.now v.items) }
{
    let mut sums = Vec::new(alloc);
    let mut so_far: usize = 0;
    sums.push(so_far)?;
    for n in counts {
        so_far += *n as usize;
        sums.push(so_far)?;
    }
    Ok(sums)
}

/// The numbers from 0 to `periods`.
fn numbers_to(alloc: Global, periods: u32) -> Result<Vec<usize>, AllocError>
    requires { periods ≤ 512 }
    ensures each { IfOk result (λ v. length v.items ≡ periods + 1) }
    ensures values { IfOk result (λ v. (k : ℕ) → k < periods + 1 → slice_index v.items k ≡ k) }
{
    let mut numbers = Vec::new(alloc);
    for k in 0..periods as usize + 1 {
        numbers.push(k)?;
    }
    Ok(numbers)
}

/// How many entries the periods from `s` to `past - 1` have together.
fn entries_between(before: &[usize], s: u32, past: u32) -> usize
    requires from { 1 ≤ s }
    requires to { s ≤ past }
    requires end { past ≤ length before.now }
    requires rises { slice_index before.now (s - 1) ≤ slice_index before.now (past - 1) }
    ensures { result ≡ slice_index before.now (past - 1) - slice_index before.now (s - 1) }
{
    before[past as usize - 1] - before[s as usize - 1]
}

/// The period after a run.
fn past_of(durations: &[u32], s: u32) -> u32
    requires from { 1 ≤ s }
    requires to { s ≤ length durations.now }
    requires small { s + slice_index durations.now (s - 1) ≤ 1000 }
    ensures { result ≡ s + slice_index durations.now (s - 1) }
{
    s + durations[s as usize - 1]
}

/// How many entries intervention `i` has at start `s`.
fn entries_in(parts: &Parts, before: &[usize], i: usize, s: u32) -> usize
    requires fits { IsFitting (tables_of parts.now) }
    requires column { IsColumn parts.now.periods before.now }
    requires number { i < length parts.now.delta.items }
    requires start { s ≤ 512 }
    ensures value { result ≡ entries_at (tables_of parts.now) (column_at before.now) i s }
    ensures small { result ≤ 524_288 }
{
    let durations = parts.delta[i].as_slice();
    if !is_allowed_in(parts.periods, durations, s) {
        return 0;
    }
    let past = past_of(durations, s);
    entries_between(before, s, past)
}

/// How many starts intervention `i` has.
pub fn start_count(parts: &Parts, i: usize) -> usize
    requires fits { IsFitting (tables_of parts.now) }
    requires number { i < length parts.now.delta.items }
    ensures value { result ≡ tmax (tables_of parts.now) i }
    ensures some { 1 ≤ result }
    ensures small { result ≤ 512 }
{
    parts.delta[i].len()
}

/// How many entries stand before those of intervention `i`, by start, and before those of the next intervention.
fn row_places(
    alloc: Global,
    parts: &Parts,
    before: &[usize],
    i: usize,
    first: usize,
) -> Result<(Vec<usize>, usize), AllocError>
    requires fits { IsFitting (tables_of parts.now) }
    requires column { IsColumn parts.now.periods before.now }
    requires number { i < length parts.now.delta.items }
    requires first { first ≡ count_sum i (entries_of (tables_of parts.now) (column_at before.now)) }
    requires small { first ≤ i * 268_435_456 }
    ensures row { IfOk result (λ r. AreRowPlaces (tables_of parts.now) (column_at before.now) i r.0.items) }
    ensures next { IfOk result
        (λ r. r.1 ≡ count_sum (i + 1) (entries_of (tables_of parts.now) (column_at before.now))) }
    ensures small { IfOk result (λ r. r.1 ≤ (i + 1) * 268_435_456) }
{
    let mut row = Vec::new(alloc);
    let mut at = first;
    let count = start_count(parts, i);
    for k in 0..count {
        row.push(at)?;
        at += entries_in(parts, before, i, k as u32 + 1);
    }
    Ok((row, at))
}

impl Offsets {
    /// Those of the risks, of which a period has one for each scenario.
    pub fn of_risks(alloc: Global, parts: &Parts) -> Result<Offsets, AllocError>
        requires { IsFitting (tables_of parts.now) }
        ensures sound { IfOk result (AreOffsets (tables_of parts.now)) }
        ensures column { IfOk result
            (λ o. IsColumnOf parts.now.periods (scenarios_before (tables_of parts.now)) o.before.items) }
    {
        let before = sums_before(alloc, parts.scenarios.as_slice())?;
        Offsets::of(alloc, parts, before)
    }

    /// Those of the soft flags, of which a period has one.
    pub fn of_soft(alloc: Global, parts: &Parts) -> Result<Offsets, AllocError>
        requires { IsFitting (tables_of parts.now) }
        ensures sound { IfOk result (AreOffsets (tables_of parts.now)) }
        ensures column { IfOk result (λ o. IsColumnOf parts.now.periods periods_before o.before.items) }
    {
        let before = numbers_to(alloc, parts.periods)?;
        Offsets::of(alloc, parts, before)
    }

    /// The offsets of entries of which so many stand before each period.
    fn of(alloc: Global, parts: &Parts, before: Vec<usize>) -> Result<Offsets, AllocError>
        requires fits { IsFitting (tables_of parts.now) }
        requires column { IsColumn parts.now.periods before.items }
        ensures sound { IfOk result (AreOffsets (tables_of parts.now)) }
        ensures column { IfOk result (λ o. o.before.items ≡ before.items) }
    {
        let mut places = Vec::new(alloc);
        let mut first: usize = 0;
        let count = parts.delta.len();
        for i in 0..count {
            let (row, next) = row_places(alloc, parts, before.as_slice(), i, first)?;
            places.push(row)?;
            first = next;
        }
        Ok(Offsets { before, places })
    }

    /// The place of the first entry of intervention `i` at start `s` in period `t`.
    pub fn place(&self, i: u32, s: u32, t: u32) -> usize
        requires number { i < length self.now.places.items }
        requires from { 1 ≤ s }
        requires among { s ≤ length (slice_index_or (rows_of self.now.places.items) i []) }
        requires order { s ≤ t }
        requires ends { t ≤ length self.now.before.items }
        requires rises { slice_index self.now.before.items (s - 1) ≤ slice_index self.now.before.items (t - 1) }
        requires small { slice_index (slice_index_or (rows_of self.now.places.items) i []) (s - 1)
            + (slice_index self.now.before.items (t - 1) - slice_index self.now.before.items (s - 1)) < 2 ^ 64 }
        ensures { result ≡ slice_index (slice_index_or (rows_of self.now.places.items) i []) (s - 1)
            + (slice_index self.now.before.items (t - 1) - slice_index self.now.before.items (s - 1)) }
    {
        let row = self.places[i as usize].as_slice();
        row[s as usize - 1] + entries_between(self.before.as_slice(), s, t)
    }

    /// The same place among the entries of intervention `i`.
    pub fn place_within(&self, i: u32, s: u32, t: u32) -> usize
        requires number { i < length self.now.places.items }
        requires from { 1 ≤ s }
        requires among { s ≤ length (slice_index_or (rows_of self.now.places.items) i []) }
        requires order { s ≤ t }
        requires ends { t ≤ length self.now.before.items }
        requires rises { slice_index self.now.before.items (s - 1) ≤ slice_index self.now.before.items (t - 1) }
        requires small { slice_index (slice_index_or (rows_of self.now.places.items) i []) (s - 1)
            + (slice_index self.now.before.items (t - 1) - slice_index self.now.before.items (s - 1)) < 2 ^ 64 }
        requires first { slice_index (slice_index_or (rows_of self.now.places.items) i []) 0
            ≤ slice_index (slice_index_or (rows_of self.now.places.items) i []) (s - 1) }
        ensures { result ≡ slice_index (slice_index_or (rows_of self.now.places.items) i []) (s - 1)
            + (slice_index self.now.before.items (t - 1) - slice_index self.now.before.items (s - 1))
            - slice_index (slice_index_or (rows_of self.now.places.items) i []) 0 }
    {
        self.place(i, s, t) - self.places[i as usize][0]
    }
}
