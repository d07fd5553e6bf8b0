//! The prices of all starts, and what the starts of least price come to.
//!
//! Amounts stop at the ends of their type: nothing rests on them.
ghost use Rattle.std.specs.Prelude.{◌≡◌, ◌*◌, ◌<◌, ◌≤◌, length, All};
ghost use Rattle.group_ladder.specs.Search.{IsStart, AreStarts, IsRange};

use crate::number::Pace;
use crate::place::period_place;
use crate::scales::Scales;
use crate::start::{Range, Start, split_row};
use crate::tail::Tail;
use instance_model::Instance;
use std::alloc::AllocError;

/// How many sums by group and scenario all periods have together.
pub(crate) fn pull_count(tails: &[Option<Tail>]) -> u64 {
    let mut count: u64 = 0;
    for slot in tails {
        if let Some(tail) = slot {
            let pulls = (tail.groups.len() as u64).saturating_mul(tail.places.len() as u64);
            count = count.saturating_add(pulls);
        }
    }
    count
}

/// Makes all groups ready for a round.
pub(crate) fn begin_tails(tails: &mut [Option<Tail>]) -> Result<(), AllocError> {
    for slot in tails.iter_mut() {
        if let Some(tail) = slot {
            tail.begin()?;
        }
    }
    Ok(())
}

/// Takes the least offset of each intervention in period `t` off what it pays there; what the offsets add whatever the
/// starts are.
fn charge_offsets_in(inst: &Instance, dues: &mut [i64], tail: &mut Tail, t: u32) -> i64
    requires each { length dues.old ≡ length inst.now.names * inst.now.periods }
    requires from { 1 ≤ t }
    requires to { t ≤ inst.now.periods }
{
    let mut fixed: i64 = 0;
    for i in 0..inst.interventions() {
        let least = tail.least_offset(i);
        let due = &mut dues[period_place(inst, i, t)];
        *due = due.saturating_sub(least);
        fixed = fixed.saturating_add(least);
    }
    fixed.saturating_sub(tail.cost())
}

/// The same in all periods.
pub(crate) fn charge_offsets(inst: &Instance, dues: &mut [i64], tails: &mut [Option<Tail>]) -> i64
    requires dues { length dues.old ≡ length inst.now.names * inst.now.periods }
    requires tails { length tails.old ≡ inst.now.periods }
{
    let mut fixed: i64 = 0;
    for t in 1..inst.periods() + 1 {
        if let Some(tail) = &mut tails[t as usize - 1] {
            fixed = fixed.saturating_add(charge_offsets_in(inst, dues, tail, t));
        }
    }
    fixed
}

/// What the least group of a row of risks comes to: 0 where the period has no groups.
fn least_in(tails: &[Option<Tail>], i: u32, t: u32, row: &[i32]) -> i64
    requires from { 1 ≤ t }
    requires to { t ≤ length tails.now }
{
    match &tails[t as usize - 1] {
        Some(tail) => tail.least(i, row).value,
        None => 0,
    }
}

/// What intervention `i` pays over the run of a start, with the least groups.
fn run_price(inst: &Instance, dues: &[i64], tails: &[Option<Tail>], i: u32, start: &Start) -> i64
    requires dues { length dues.now ≡ length inst.now.names * inst.now.periods }
    requires tails { length tails.now ≡ inst.now.periods }
    requires number { i < length inst.now.names }
    requires start { IsStart inst.now start.now }
{
    let mut rest = start.risks.as_slice();
    let mut price: i64 = 0;
    for t in start.begin..start.past {
        let (row, behind) = split_row(rest, inst.scenarios(t));
        price = price
            .saturating_add(dues[period_place(inst, i, t)])
            .saturating_add(least_in(tails, i, t, row));
        rest = behind;
    }
    price
}

/// Adds what intervention `i` pays to the prices of its starts.
fn add_runs_of(
    inst: &Instance,
    entries: &mut [i64],
    dues: &[i64],
    tails: &[Option<Tail>],
    starts: &[Start],
    range: Range,
    i: u32,
)
    requires entries { length entries.old ≡ length starts.now }
    requires dues { length dues.now ≡ length inst.now.names * inst.now.periods }
    requires tails { length tails.now ≡ inst.now.periods }
    requires starts { AreStarts inst.now starts.now }
    requires range { IsRange (length starts.now) range }
    requires number { i < length inst.now.names }
{
    for k in range.from..range.past {
        let more = run_price(inst, dues, tails, i, &starts[k]);
        entries[k] = entries[k].saturating_add(more);
    }
}

/// Adds what all interventions pay to the prices of their starts.
pub(crate) fn add_runs(
    inst: &Instance,
    entries: &mut [i64],
    dues: &[i64],
    tails: &[Option<Tail>],
    starts: &[Start],
    ranges: &[Range],
)
    requires entries { length entries.old ≡ length starts.now }
    requires dues { length dues.now ≡ length inst.now.names * inst.now.periods }
    requires tails { length tails.now ≡ inst.now.periods }
    requires starts { AreStarts inst.now starts.now }
    requires each { length ranges.now ≡ length inst.now.names }
    requires ranges { All (IsRange (length starts.now)) ranges.now }
{
    for i in 0..inst.interventions() {
        add_runs_of(inst, entries, dues, tails, starts, ranges[i as usize], i);
    }
}

/// The place of the first start of least price of a range.
fn cheapest(entries: &[i64], range: Range) -> usize
    requires { IsRange (length entries.now) range }
    ensures { result < length entries.now }
{
    let mut best = range.from;
    let mut least = entries[best];
    for k in range.from..range.past {
        if entries[k] < least {
            best = k;
            least = entries[k];
        }
    }
    best
}

/// Notes the periods in which intervention `i` is in progress at a start, and its risks there.
fn note_start(inst: &Instance, busy: &mut [bool], tails: &mut [Option<Tail>], i: u32, start: &Start)
    requires busy { length busy.old ≡ length inst.now.names * inst.now.periods }
    requires tails { length tails.old ≡ inst.now.periods }
    requires number { i < length inst.now.names }
    requires start { IsStart inst.now start.now }
{
    let mut rest = start.risks.as_slice();
    for t in start.begin..start.past {
        let (row, behind) = split_row(rest, inst.scenarios(t));
        busy[period_place(inst, i, t)] = true;
        if let Some(tail) = &mut tails[t as usize - 1] {
            tail.note(i, row);
        }
        rest = behind;
    }
}

/// Chooses a start of least price for each intervention, and notes where it is in progress; the sum of these prices.
pub(crate) fn choose(
    inst: &Instance,
    entries: &[i64],
    starts: &[Start],
    ranges: &[Range],
    chosen: &mut [bool],
    busy: &mut [bool],
    tails: &mut [Option<Tail>],
) -> i64
    requires entries { length entries.now ≡ length starts.now }
    requires starts { AreStarts inst.now starts.now }
    requires each { length ranges.now ≡ length inst.now.names }
    requires ranges { All (IsRange (length starts.now)) ranges.now }
    requires chosen { length chosen.old ≡ length starts.now }
    requires busy { length busy.old ≡ length inst.now.names * inst.now.periods }
    requires tails { length tails.old ≡ inst.now.periods }
{
    chosen.fill(false);
    busy.fill(false);
    let mut sum: i64 = 0;
    for i in 0..inst.interventions() {
        let k = cheapest(entries, ranges[i as usize]);
        chosen[k] = true;
        note_start(inst, busy, tails, i, &starts[k]);
        sum = sum.saturating_add(entries[k]);
    }
    sum
}

/// Smooths what is known of all groups, and lets scenarios go to other groups where this is asked for.
pub(crate) fn shift_tails(tails: &mut [Option<Tail>], light: bool, spare: bool, scales: Scales) {
    for slot in tails.iter_mut() {
        if let Some(tail) = slot {
            tail.shift(light, spare, scales);
        }
    }
}

/// Moves the weights and offsets of all groups.
pub(crate) fn step_tails(tails: &mut [Option<Tail>], shares: &[i64], scales: Scales, pace: Pace) {
    for slot in tails.iter_mut() {
        if let Some(tail) = slot {
            tail.step(shares, scales, pace);
        }
    }
}

/// Notes that these are the best groups, weights and offsets so far.
pub(crate) fn keep_tails(tails: &mut [Option<Tail>]) {
    for slot in tails.iter_mut() {
        if let Some(tail) = slot {
            tail.keep();
        }
    }
}
