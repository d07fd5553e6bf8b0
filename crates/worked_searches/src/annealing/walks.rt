//! What each change adds, beside the difference of scores, on walks from plan to plan.

use crate::annealing::draft::Draft;
use crate::annealing::judged::{drawn, first_plan, score_of};
use crate::annealing::shapes::{LONG, SMALL, Shape, WIDE};
use instance_model::Instance;
use plan_annealing::trial::Trial;
use std::alloc::{AllocError, Global};
use std::process::Abort;
use std::test::Fail;

/// How many changes are judged on a walk.
const STEPS: u32 = 120;

/// A plan that changes: what the search keeps of it, its starts, and its score from scratch.
#[derive(Drop)]
struct Walk<'a> {
    inst: &'a Instance,
    trial: Trial<'a>,
    starts: Vec<u32>,
    score: i128,
}

/// The start of an intervention.
fn start_of(starts: &[u32], i: u32) -> u32 {
    starts.get(i as usize).copied().unwrap_or(0)
}

/// Another start for one intervention.
fn moved(alloc: Global, starts: &[u32], i: u32, s: u32) -> Result<Vec<u32>, AllocError> {
    let mut starts = starts.to_vec(alloc)?;
    if let Some(start) = starts.get_mut(i as usize) {
        *start = s;
    }
    Ok(starts)
}

/// The starts of two interventions, exchanged.
fn exchanged(alloc: Global, starts: &[u32], i: u32, j: u32) -> Result<Vec<u32>, AllocError> {
    let changed = moved(alloc, starts, i, start_of(starts, j))?;
    moved(alloc, changed.as_slice(), j, start_of(starts, i))
}

/// Whether a rise that the search found is as from scratch: exact where no bit is dropped, and else off by less than a
/// unit for each period.
fn agrees(rise: i64, exact: i128, bits: u32, periods: u32) -> bool {
    let mut unit: i128 = 1;
    for _ in 0..bits {
        unit = unit.saturating_mul(2);
    }
    let off = i128::from(rise).saturating_mul(unit).saturating_sub(exact);
    off.saturating_abs() <= unit.saturating_sub(1).saturating_mul(i128::from(periods))
}

impl<'a> Walk<'a> {
    fn begin(alloc: Global, inst: &'a Instance, starts: &[u32]) -> Result<Walk<'a>, AllocError> {
        Ok(Walk {
            inst,
            trial: Trial::begin(alloc, inst, starts)?,
            starts: starts.to_vec(alloc)?,
            score: score_of(alloc, inst, starts)?.unwrap_or(0),
        })
    }

    /// A rise is as from scratch where the starts that it leads to have this score: none where they break a rule.
    fn is_told(&self, rise: Option<i64>, score: Option<i128>) -> bool {
        match (rise, score) {
            (Some(rise), Some(score)) => self.agrees(rise, score.saturating_sub(self.score)),
            (rise, score) => rise.is_none() && score.is_none(),
        }
    }

    fn agrees(&self, told: i64, exact: i128) -> bool {
        agrees(told, exact, self.trial.dropped_bits(), self.inst.periods())
    }

    /// Goes on to other starts.
    fn take(&mut self, rt: &impl Abort, starts: Vec<u32>, score: i128) {
        self.starts = starts;
        self.score = score;
        assert!(rt; self.agrees(self.trial.score(), score), "{score}");
    }

    /// Judges a move, and makes it where that is wished. Tells whether it keeps the rules.
    fn judge_move(
        &mut self,
        rt: &impl Abort,
        alloc: Global,
        i: u32,
        s: u32,
        wished: bool,
    ) -> Result<bool, AllocError> {
        let starts = moved(alloc, self.starts.as_slice(), i, s)?;
        let score = score_of(alloc, self.inst, starts.as_slice())?;
        let rise = self.trial.move_rise(i, s);
        assert!(rt; self.is_told(rise, score), "{i} {s} {rise:?} {score:?}");
        if wished {
            assert_eq!(rt; self.trial.make_move(i, s), score.is_some());
            if let Some(score) = score {
                self.take(rt, starts, score);
            }
        }
        Ok(score.is_some())
    }

    /// Judges an exchange of two starts that aren't the same, and makes it where that is wished. Tells whether it keeps
    /// the rules.
    fn judge_exchange(
        &mut self,
        rt: &impl Abort,
        alloc: Global,
        i: u32,
        j: u32,
        wished: bool,
    ) -> Result<bool, AllocError> {
        if start_of(self.starts.as_slice(), i) == start_of(self.starts.as_slice(), j) {
            return Ok(false);
        }
        let starts = exchanged(alloc, self.starts.as_slice(), i, j)?;
        let score = score_of(alloc, self.inst, starts.as_slice())?;
        let rise = self.trial.exchange_rise(i, j);
        assert!(rt; self.is_told(rise, score), "{i} {j} {rise:?} {score:?}");
        if wished {
            assert_eq!(rt; self.trial.make_exchange(i, j), score.is_some());
            if let Some(score) = score {
                self.take(rt, starts, score);
            }
        }
        Ok(score.is_some())
    }

    /// Judges a drawn change.
    fn step(
        &mut self,
        rt: &impl Abort,
        alloc: Global,
        draft: &mut Draft,
    ) -> Result<bool, AllocError> {
        let i = draft.below(self.inst.interventions());
        let wished = draft.below(2) == 0;
        if draft.below(2) == 0 {
            let j = draft.below(self.inst.interventions());
            self.judge_exchange(rt, alloc, i, j, wished)
        } else {
            let s = draft.below(self.inst.periods()).saturating_add(1);
            self.judge_move(rt, alloc, i, s, wished)
        }
    }
}

/// A walk from a drawn plan, if one keeps every rule. Tells how many changes kept them.
fn walk_from(
    rt: &impl Abort,
    alloc: Global,
    inst: &Instance,
    seed: u64,
) -> Result<u32, AllocError> {
    let mut draft = Draft::new(alloc, seed);
    let Some(starts) = first_plan(alloc, inst, &mut draft)? else {
        return Ok(0);
    };
    let mut walk = Walk::begin(alloc, inst, starts.as_slice())?;
    let mut kept: u32 = 0;
    for _ in 0..STEPS {
        if walk.step(rt, alloc, &mut draft)? {
            kept = kept.saturating_add(1);
        }
    }
    Ok(kept)
}

/// Walks on so many drawn instances of a kind: many changes keep the rules.
fn walks_agree(rt: &impl Abort, alloc: Global, shape: Shape, count: u64) -> Result<(), Fail> {
    let mut kept: u32 = 0;
    for seed in 0..count {
        let inst = drawn(alloc, shape, seed)?;
        kept = kept.saturating_add(walk_from(rt, alloc, &inst, seed)?);
    }
    assert!(rt; u64::from(kept) > count.saturating_mul(5), "{kept}");
    Ok(())
}

#[test]
fn changes_of_small_instances_agree(rt: HostRuntime) -> Result<(), Fail> {
    for shape in SMALL {
        walks_agree(&rt, rt.alloc(), shape, 6)?;
    }
    Ok(())
}

#[test]
fn changes_over_many_periods_agree(rt: HostRuntime) -> Result<(), Fail> {
    walks_agree(&rt, rt.alloc(), LONG, 1)?;
    walks_agree(&rt, rt.alloc(), WIDE, 4)?;
    Ok(())
}
