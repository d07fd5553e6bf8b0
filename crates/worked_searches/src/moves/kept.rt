//! Two interventions of two periods each over three periods, each from period 1 or 2, worked out by hand.
//!
//! | starts | sums by period | score | loads by period | loads off limits | clashes |
//! |---|---|---|---|---|---|
//! | 1, 1 | 5; 3, 7; 0 | 4,000,000 | 1, 3, 0 | 0 | in period 1 |
//! | 1, 2 | 1; 0, 9; 2 | 5,250,000 | 0, 3, 2 | 1 in period 1, 1 in period 3 | none |
//! | 2, 1 | 4; 6, 2; 3 | 4,250,000 | 1, 4, 0 | 1 in period 2 | none |
//!
//! The score of a sum alone is a quarter million times it, and that of two sums an eighth million times both and three
//! eighths of a million times their difference.
ghost use Rattle.std.specs.Prelude.{◌≡◌};

use crate::moves::samples::overlapping;
use fixed_num::Steps;
use instance_model::{Instance, Key};
use plan_moves::Kept;
use quantile_index::{FlatRow, Row, TreeRow};
use small_instances::are_allowed;
use std::alloc::{AllocError, Global};
use std::marker::Brand;
use std::process::Abort;
use std::sync::ledger::{Blank, Ledger};
use std::test::Fail;

/// The keys of the plans 1, 1 and 1, 2 and 2, 1.
const BOTH_FIRST: Key = Key {
    violation: 1_000_000_000_000,
    score: 4_000_000,
};

const SECOND_LATER: Key = Key {
    violation: 2,
    score: 5_250_000,
};

const FIRST_LATER: Key = Key {
    violation: 1,
    score: 4_250_000,
};

/// The opening plan of two first starts.
fn opened<'a, R: Row>(
    rt: &impl Abort,
    alloc: Global,
    inst: &'a Instance,
) -> Result<Kept<'a, R>, AllocError> {
    if !are_allowed(inst, &[1, 1]) {
        panic!(rt; "the first starts aren't allowed");
    }
    Kept::make(alloc, inst, &[1, 1])
}

/// Changes a start, where that is allowed and there is spare for it.
fn moved<R: Row, L: Ledger>(kept: &mut Kept<'_, R>, i: u32, s: u32, steps: &mut Steps<L>) -> bool {
    let inst = kept.instance();
    if i >= inst.interventions() || !inst.allowed(i, s) || kept.spare() == 0 {
        return false;
    }
    kept.move_start(i, s, steps);
    true
}

/// Exchanges two starts, where that is allowed and there is spare for it.
fn swapped<R: Row, L: Ledger>(
    kept: &mut Kept<'_, R>,
    i: u32,
    j: u32,
    steps: &mut Steps<L>,
) -> bool {
    let inst = kept.instance();
    if i >= inst.interventions() || j >= inst.interventions() || kept.spare() == 0 {
        return false;
    }
    if !inst.allowed(i, kept.start_of(j)) || !inst.allowed(j, kept.start_of(i)) {
        return false;
    }
    kept.swap(i, j, steps);
    true
}

/// Takes the present plan off, where it isn't the only one.
fn undone<R: Row, L: Ledger>(kept: &mut Kept<'_, R>, steps: &mut Steps<L>) -> bool {
    kept.undo(steps)
}

/// The two starts of the present plan; none where it has another number of them.
fn starts_of<R: Row>(kept: &Kept<'_, R>) -> Option<[u32; 2]> {
    if kept.instance().interventions() != 2 {
        return None;
    }
    Some([kept.start_of(0), kept.start_of(1)])
}

fn key_of<R: Row>(kept: &Kept<'_, R>) -> Key {
    kept.key()
}

fn spare_of<R: Row>(kept: &Kept<'_, R>) -> usize {
    kept.spare()
}

/// The starts and the key of the present plan, and the spare.
fn shows<R: Row>(rt: &impl Abort, kept: &Kept<'_, R>, starts: [u32; 2], key: Key, spare: usize) {
    let found = (starts_of(kept), key_of(kept), spare_of(kept));
    assert_eq!(rt; found, (Some(starts), key, spare));
}

/// A move, a swap of overlapping runs, and a swap of an intervention with itself.
fn goes_there<R: Row, L: Ledger>(rt: &impl Abort, kept: &mut Kept<'_, R>, steps: &mut Steps<L>) {
    assert!(rt; moved(kept, 1, 2, steps));
    shows(rt, kept, [1, 2], SECOND_LATER, 2);
    assert!(rt; swapped(kept, 0, 1, steps));
    shows(rt, kept, [2, 1], FIRST_LATER, 1);
    assert!(rt; swapped(kept, 1, 1, steps));
    shows(rt, kept, [2, 1], FIRST_LATER, 0);
}

/// The same way back, to the opening plan, which stays.
fn comes_back<R: Row, L: Ledger>(rt: &impl Abort, kept: &mut Kept<'_, R>, steps: &mut Steps<L>) {
    assert!(rt; undone(kept, steps));
    shows(rt, kept, [2, 1], FIRST_LATER, 1);
    assert!(rt; undone(kept, steps));
    shows(rt, kept, [1, 2], SECOND_LATER, 2);
    assert!(rt; undone(kept, steps));
    shows(rt, kept, [1, 1], BOTH_FIRST, 3);
    assert!(rt; !undone(kept, steps), "the opening plan stays");
}

fn reserve<R: Row>(kept: &mut Kept<'_, R>, n: usize) -> Result<(), AllocError> {
    kept.reserve(n)
}

fn goes_there_and_back<R: Row, L: Ledger>(
    rt: &impl Abort,
    alloc: Global,
    blank: Blank,
) -> Result<(), Fail>
    requires name { blank.name ≡ L.name }
    requires parts { blank.parts ≡ L.parts }
    requires one { blank.parts ≡ 1 }
{
    let mut steps = Steps::<L>::zero(blank);
    let inst = overlapping(alloc)?;
    let mut kept = opened::<R>(rt, alloc, &inst)?;
    shows(rt, &kept, [1, 1], BOTH_FIRST, 0);
    reserve(&mut kept, 3)?;
    goes_there(rt, &mut kept, &mut steps);
    comes_back(rt, &mut kept, &mut steps);
    Ok(())
}

#[test]
fn goes_there_and_back_over_flat_rows(rt: HostRuntime) -> Result<(), Fail> {
    goes_there_and_back::<FlatRow, Brand>(&rt, rt.alloc(), Blank::new(1))
}

#[test]
fn goes_there_and_back_over_tree_rows(rt: HostRuntime) -> Result<(), Fail> {
    goes_there_and_back::<TreeRow, Brand>(&rt, rt.alloc(), Blank::new(1))
}
