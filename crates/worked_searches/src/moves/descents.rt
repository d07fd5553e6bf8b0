//! Descents over two interventions of one period each, from period 1 or 2, worked out by hand.
//!
//! | starts | loads | violation / 10^12 | score / 10^18 |
//! |---|---|--:|--:|
//! | 1, 1 | 12, 0 | 2 | 0 |
//! | 1, 2 | 6, 6 | 0 | 2 |
//! | 2, 1 | 6, 6 | 0 | 4 |
//! | 2, 2 | 0, 12 | 2 | 6 |
use crate::moves::samples::{leading, paired};
use instance_model::{Instance, Key};
use local_search::descend;
use plan_moves::Kept;
use quantile_index::FlatRow;
use small_instances::are_allowed;
use std::alloc::{AllocError, Global};
use std::test::Fail;

/// The keys of the plans 1, 1 and 1, 2.
const BOTH_FIRST: Key = Key {
    violation: 2_000_000_000_000,
    score: 0,
};

const SECOND_LATER: Key = Key {
    violation: 0,
    score: 2_000_000_000_000_000_000,
};

/// How many changes a descent from these starts makes, whether no turn is left then, and the key at its end; none where
/// a start isn't allowed.
fn descended(
    alloc: Global,
    inst: &Instance,
    starts: &[u32],
    turns: u32,
) -> Result<Option<(usize, bool, Key)>, AllocError> {
    if !are_allowed(inst, starts) {
        return Ok(None);
    }
    let mut kept = Kept::<FlatRow>::make(alloc, inst, starts)?;
    let descent = descend(alloc, &mut kept, turns)?;
    let changes = descent.moves.as_slice().len();
    Ok(Some((changes, descent.spent, kept.key())))
}

#[test]
fn no_turn_makes_no_change(rt: HostRuntime) -> Result<(), Fail> {
    let inst = paired(rt.alloc())?;
    let end = descended(rt.alloc(), &inst, &[1, 1], 0)?;
    assert_eq!(rt; end, Some((0, true, BOTH_FIRST)));
    Ok(())
}

#[test]
fn one_turn_brings_the_load_within_its_limit(rt: HostRuntime) -> Result<(), Fail> {
    let inst = paired(rt.alloc())?;
    let end = descended(rt.alloc(), &inst, &[1, 1], 1)?;
    let told = end.map(|(changes, spent, key)| (changes, spent, key.violation));
    assert_eq!(rt; told, Some((1, true, 0)));
    Ok(())
}

#[test]
fn three_turns_come_to_the_lowest_key(rt: HostRuntime) -> Result<(), Fail> {
    let inst = paired(rt.alloc())?;
    let end = descended(rt.alloc(), &inst, &[1, 1], 3)?;
    let told = end.map(|(changes, spent, key)| (changes == 1 || changes == 2, spent, key));
    assert_eq!(rt; told, Some((true, false, SECOND_LATER)));
    Ok(())
}

#[test]
fn a_local_optimum_stays(rt: HostRuntime) -> Result<(), Fail> {
    let inst = paired(rt.alloc())?;
    let end = descended(rt.alloc(), &inst, &[1, 2], 3)?;
    assert_eq!(rt; end, Some((0, false, SECOND_LATER)));
    Ok(())
}

/// From starts 1, 1 (violation 6) start 3 of the first leaves 1, and no change from there lowers it. Its start 2 leaves 2,
/// and start 3 of the second then none.
#[test]
fn a_lesser_fall_is_taken_where_it_leads_to_a_plan(rt: HostRuntime) -> Result<(), Fail> {
    let inst = leading(rt.alloc())?;
    let end = descended(rt.alloc(), &inst, &[1, 1], 9)?;
    let told = end.map(|(changes, spent, key)| (changes, spent, key.violation));
    assert_eq!(rt; told, Some((2, false, 0)));
    Ok(())
}
