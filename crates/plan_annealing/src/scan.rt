//! The quantile of changed sums, found by going over them in the order that they had.

ghost use Rattle.std.specs.Prelude.{◌<◌, length};

/// A sum, and the scenario that it is of, counted from 0.
#[derive(Clone, Copy)]
pub(crate) struct Ranked {
    pub(crate) sum: i64,
    pub(crate) scenario: u32,
}

/// The risks that a change adds and takes off, by scenario: none where it has no such run in the period.
#[derive(Clone, Copy)]
pub(crate) struct Deltas<'a> {
    pub(crate) come: &'a [i64],
    pub(crate) gone: &'a [i64],
    pub(crate) second_come: &'a [i64],
    pub(crate) second_gone: &'a [i64],
}

/// A risk, 0 where there is none.
#[inline]
fn risk_at(risks: &[i64], k: usize) -> i64 {
    if k < risks.len() { risks[k] } else { 0 }
}

impl<'a> Deltas<'a> {
    /// What a scenario's sum rises by.
    #[inline]
    pub(crate) fn at(&self, scenario: u32) -> i64 {
        let k = scenario as usize;
        let rise = risk_at(self.come, k).wrapping_sub(risk_at(self.gone, k));
        if self.second_come.is_empty() && self.second_gone.is_empty() {
            return rise;
        }
        rise.wrapping_add(risk_at(self.second_come, k))
            .wrapping_sub(risk_at(self.second_gone, k))
    }

    /// The new sum.
    #[inline]
    fn sum(&self, old: &Ranked) -> i64 {
        old.sum.wrapping_add(self.at(old.scenario))
    }
}

/// The greatest new sum. None rises by more than `rise`.
#[inline]
fn greatest(ranked: &[Ranked], deltas: Deltas, rise: i64) -> i64 {
    let mut first = i64::MIN;
    for old in ranked {
        if old.sum.wrapping_add(rise) <= first {
            return first;
        }
        first = first.max(deltas.sum(old));
    }
    first
}

/// The second greatest.
#[inline]
fn second_greatest(ranked: &[Ranked], deltas: Deltas, rise: i64) -> i64 {
    let mut first = i64::MIN;
    let mut second = i64::MIN;
    for old in ranked {
        if old.sum.wrapping_add(rise) <= second {
            return second;
        }
        let sum = deltas.sum(old);
        second = second.max(sum.min(first));
        first = first.max(sum);
    }
    second
}

/// Puts a number among falling ones, the last of which goes.
#[inline]
fn insert(greatest: &mut [i64], number: i64) {
    let count = greatest.len();
    if count == 0 || number <= greatest[count - 1] {
        return;
    }
    let mut place = count - 1;
    for k in (0..count - 1).rev() {
        if greatest[k] >= number {
            break;
        }
        greatest[k + 1] = greatest[k];
        place = k;
    }
    greatest[place] = number;
}

/// The last of as many greatest new sums as there is room for in `sums`.
fn last_of_greatest(ranked: &[Ranked], deltas: Deltas, rise: i64, sums: &mut [i64]) -> i64 {
    sums.fill(i64::MIN);
    for old in ranked {
        if old.sum.wrapping_add(rise) <= last_of(sums) {
            break;
        }
        insert(sums, deltas.sum(old));
    }
    last_of(sums)
}

/// The last of some numbers.
#[inline]
fn last_of(numbers: &[i64]) -> i64 {
    match numbers.last() {
        Some(last) => *last,
        None => i64::MIN,
    }
}

/// The sum of rank `high` from the greatest on, after a change. The sums fall, and none rises by more than `rise`.
#[inline]
pub(crate) fn sum_after(
    ranked: &[Ranked],
    deltas: Deltas,
    rise: i64,
    high: usize,
    sums: &mut [i64],
) -> i64 {
    if high == 1 {
        return greatest(ranked, deltas, rise);
    }
    if high == 2 {
        return second_greatest(ranked, deltas, rise);
    }
    let count = high.min(sums.len());
    last_of_greatest(ranked, deltas, rise, &mut sums[..count])
}

/// Puts an entry among those before place `j`, which fall.
#[inline]
fn put(ranked: &mut [Ranked], j: usize, entry: Ranked)
    requires { j < length ranked.old }
{
    let mut place = j;
    for k in (0..j).rev() {
        if ranked[k].sum >= entry.sum {
            break;
        }
        ranked[k + 1] = ranked[k];
        place = k;
    }
    ranked[place] = entry;
}

/// Changes the sums of a period, and puts them in falling order again. Answers by how much their total rises.
pub(crate) fn change_sums(ranked: &mut [Ranked], deltas: Deltas) -> i64 {
    let mut total: i64 = 0;
    for j in 0..ranked.len() {
        let mut entry = ranked[j];
        let rise = deltas.at(entry.scenario);
        entry.sum = entry.sum.wrapping_add(rise);
        total = total.wrapping_add(rise);
        put(ranked, j, entry);
    }
    total
}
