//! What follows from the risks of the starts: sums by scenario, mean risks, and what starts add whatever the prices are.
//!
//! Amounts stop at the ends of their type: nothing rests on them.
ghost use Rattle.std.specs.Prelude.{◌≡◌, ◌*◌, ◌<◌, ◌≤◌, length, All, IfOk};
ghost use Rattle.group_ladder.specs.Search.{IsStart, AreStarts, IsRange};

use crate::group::add_row;
use crate::number::quotient;
use crate::place::period_place;
use crate::start::{Range, Start, split_row};
use crate::tail::Tail;
use crate::units::PARTS;
use instance_model::Instance;
use std::alloc::{AllocError, Global};

/// A sum of 0 for each scenario of each period.
fn zero_sums(alloc: Global, inst: &Instance) -> Result<Vec<Vec<i64>>, AllocError>
    ensures { IfOk result (λ sums. length sums.items ≡ inst.now.periods) }
{
    let mut sums = Vec::with_capacity(alloc, inst.periods() as usize)?;
    for t in 1..inst.periods() + 1 {
        sums.push(vec![in alloc; 0; inst.scenarios(t) as usize]?)?;
    }
    Ok(sums)
}

/// Adds the risks of a start to sums by period, then scenario.
fn add_start(inst: &Instance, sums: &mut [Vec<i64>], start: &Start)
    requires each { length sums.old ≡ inst.now.periods }
    requires start { IsStart inst.now start.now }
{
    let mut rest = start.risks.as_slice();
    for t in start.begin..start.past {
        let (row, behind) = split_row(rest, inst.scenarios(t));
        add_row(&mut sums[t as usize - 1], row);
        rest = behind;
    }
}

/// The sums of the risks of all starts, by period, then scenario.
pub(crate) fn all_sums(
    alloc: Global,
    inst: &Instance,
    starts: &[Start],
) -> Result<Vec<Vec<i64>>, AllocError>
    requires { AreStarts inst.now starts.now }
    ensures { IfOk result (λ sums. length sums.items ≡ inst.now.periods) }
{
    let mut sums = zero_sums(alloc, inst)?;
    for start in starts {
        add_start(inst, &mut sums, start);
    }
    Ok(sums)
}

/// The mean of some risks.
fn mean_of(row: &[i32]) -> i64 {
    let mut sum: i64 = 0;
    let mut count: i64 = 0;
    for risk in row {
        sum = sum.saturating_add(i64::from(*risk));
        count = count.saturating_add(1);
    }
    quotient(sum, count)
}

/// The sum of the mean risks of a start in the periods of its run.
fn means_of(inst: &Instance, start: &Start) -> i64
    requires { IsStart inst.now start.now }
{
    let mut rest = start.risks.as_slice();
    let mut sum: i64 = 0;
    for t in start.begin..start.past {
        let (row, behind) = split_row(rest, inst.scenarios(t));
        sum = sum.saturating_add(mean_of(row));
        rest = behind;
    }
    sum
}

/// How many periods the runs of some starts have together.
pub(crate) fn sum_of_periods(starts: &[Start]) -> i64 {
    let mut sum: i64 = 0;
    for start in starts {
        sum = sum.saturating_add(i64::from(start.past.saturating_sub(start.begin)));
    }
    sum
}

/// The mean risk of some starts in a period in progress, at least 1.
fn share_of(inst: &Instance, starts: &[Start]) -> i64
    requires { AreStarts inst.now starts.now }
{
    let mut sum: i64 = 0;
    for start in starts {
        sum = sum.saturating_add(means_of(inst, start));
    }
    quotient(sum, sum_of_periods(starts)).max(1)
}

/// The mean risk of each intervention in a period in progress.
pub(crate) fn all_shares(
    alloc: Global,
    inst: &Instance,
    starts: &[Start],
    ranges: &[Range],
) -> Result<Vec<i64>, AllocError>
    requires starts { AreStarts inst.now starts.now }
    requires ranges { All (IsRange (length starts.now)) ranges.now }
{
    let mut shares = Vec::with_capacity(alloc, ranges.len())?;
    for range in ranges {
        shares.push(share_of(inst, &starts[range.from..range.past]))?;
    }
    Ok(shares)
}

/// The mean of some numbers, at least 1.
pub(crate) fn mean_share(shares: &[i64]) -> i64 {
    let mut sum: i64 = 0;
    let mut count: i64 = 0;
    for share in shares {
        sum = sum.saturating_add(*share);
        count = count.saturating_add(1);
    }
    quotient(sum, count).max(1)
}

/// What a start adds whatever the prices are: its mean risks, weighted, less what the groups compare with.
fn base_of(inst: &Instance, tails: &[Option<Tail>], start: &Start, weight: i64) -> i64
    requires each { length tails.now ≡ inst.now.periods }
    requires start { IsStart inst.now start.now }
{
    let alone = PARTS.saturating_sub(weight);
    let compared = alone.saturating_sub(weight);
    let mut rest = start.risks.as_slice();
    let mut base: i64 = 0;
    for t in start.begin..start.past {
        let (row, behind) = split_row(rest, inst.scenarios(t));
        let factor = match &tails[t as usize - 1] {
            Some(_) => compared,
            None => alone,
        };
        base = base.saturating_add(mean_of(row).saturating_mul(factor));
        rest = behind;
    }
    base
}

/// Computes what each start adds whatever the prices are.
pub(crate) fn bases_of(
    alloc: Global,
    inst: &Instance,
    tails: &[Option<Tail>],
    starts: &[Start],
    weight: i64,
) -> Result<Vec<i64>, AllocError>
    requires each { length tails.now ≡ inst.now.periods }
    requires starts { AreStarts inst.now starts.now }
    ensures { IfOk result (λ bases. length bases.items ≡ length starts.now) }
{
    let mut bases = Vec::with_capacity(alloc, starts.len())?;
    for start in starts {
        bases.push(base_of(inst, tails, start, weight))?;
    }
    Ok(bases)
}

/// Notes in which periods an intervention is in progress at a start.
pub(crate) fn note_run(inst: &Instance, i: u32, start: &Start, busy: &mut [bool])
    requires each { length busy.old ≡ length inst.now.names * inst.now.periods }
    requires number { i < length inst.now.names }
    requires start { IsStart inst.now start.now }
{
    for t in start.begin..start.past {
        busy[period_place(inst, i, t)] = true;
    }
}
