//! Exclusions of two interventions, worked out by hand.
use crate::moves::samples::exclusive;
use instance_model::Instance;
use season_exclusion::Clashes;
use small_instances::are_allowed;
use std::alloc::{AllocError, Global};
use std::test::Fail;

/// How many exclusions are broken as both interventions start in period 1, and then the second, the first, and again
/// the second are moved to their other start; none where a start isn't allowed.
fn counts(alloc: Global, inst: &Instance) -> Result<Option<[u64; 4]>, AllocError> {
    if inst.interventions() != 2 || !are_allowed(inst, &[1, 1]) {
        return Ok(None);
    }
    if !are_allowed(inst, &[1, 2]) || !are_allowed(inst, &[2, 2]) || !are_allowed(inst, &[2, 1]) {
        return Ok(None);
    }
    let mut clashes = Clashes::make(alloc, inst, &[1, 1])?;
    let opening = clashes.count();
    clashes.reset_for(inst, 1, &[1, 2]);
    let second_later = clashes.count();
    clashes.reset_for(inst, 0, &[2, 2]);
    let both_later = clashes.count();
    clashes.reset_for(inst, 1, &[2, 1]);
    Ok(Some([opening, second_later, both_later, clashes.count()]))
}

/// Both are in the season; the second one is past it; they meet past it; the second one is in it, alone.
#[test]
fn exclusions_break_and_heal(rt: HostRuntime) -> Result<(), Fail> {
    let inst = exclusive(rt.alloc())?;
    assert_eq!(rt; counts(rt.alloc(), &inst)?, Some([2, 0, 0, 1]));
    Ok(())
}
