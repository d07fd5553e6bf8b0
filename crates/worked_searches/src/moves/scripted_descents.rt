//! Descents whose changes are written as a script, which is read again and replayed: the keys that are said fall.
//!
//! The plans are those of `descents.rt`. From 1, 1 a descent comes to 1, 2 at once, or by 2, 1.
ghost use Rattle.instance_model.specs.Plans.{AreAllowedStarts};

use crate::moves::samples::paired;
use instance_model::Instance;
use local_search::descend;
use move_script::{read_script, replay, write_moves};
use plan_desk::{Desk, MemDesk};
use plan_moves::Kept;
use quantile_index::FlatRow;
use small_instances::are_allowed;
use std::alloc::Global;
use std::test::Fail;

/// What a replay says of the two ways: the number of a line, then the violation and the score after it.
const AT_ONCE: &[u8] = b"0 2000000000000 0\n1 0 2000000000000000000\n";

const IN_TWO_CHANGES: &[u8] =
    b"0 2000000000000 0\n1 0 4000000000000000000\n2 0 2000000000000000000\n";

/// Descends from these starts, and writes the changes to a new file.
fn write_descent<D: Desk>(
    alloc: Global,
    inst: &Instance,
    starts: &[u32],
    turns: u32,
    desk: &mut D,
) -> Result<(), Fail>
    requires { AreAllowedStarts inst.now starts.now }
{
    inst.fits();
    let mut kept = Kept::<FlatRow>::make(alloc, inst, starts)?;
    let descent = descend(alloc, &mut kept, turns)?;
    desk.put_out("trail")?;
    write_moves(inst, &descent.moves, desk)?;
    Ok(())
}

/// A desk to which the script of a text was replayed from these starts.
fn replayed(alloc: Global, inst: &Instance, starts: &[u32], text: &[u8]) -> Result<MemDesk, Fail>
    requires { AreAllowedStarts inst.now starts.now }
{
    let script = read_script(alloc, inst, text)?;
    let mut desk = MemDesk::make(alloc);
    replay::<FlatRow, MemDesk>(alloc, inst, starts, &script, &mut desk)?;
    Ok(desk)
}

/// What a replay of the script of a descent says, where the starts are allowed.
fn descent_said(
    alloc: Global,
    inst: &Instance,
    starts: &[u32],
    turns: u32,
) -> Result<Option<MemDesk>, Fail> {
    if !are_allowed(inst, starts) {
        return Ok(None);
    }
    let mut desk = MemDesk::make(alloc);
    write_descent(alloc, inst, starts, turns, &mut desk)?;
    let Some(text) = desk.file("trail") else {
        return Ok(None);
    };
    Ok(Some(replayed(alloc, inst, starts, text)?))
}

#[test]
fn a_replayed_descent_says_falling_keys(rt: HostRuntime) -> Result<(), Fail> {
    let inst = paired(rt.alloc())?;
    let Some(desk) = descent_said(rt.alloc(), &inst, &[1, 1], 3)? else {
        return Err(Fail::new("no script was written"));
    };
    let said = desk.spoken();
    assert!(rt; said == AT_ONCE || said == IN_TWO_CHANGES, "{said:?}");
    Ok(())
}
