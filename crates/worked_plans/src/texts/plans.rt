//! Plans read and written, over the interventions N1 and N2.
ghost use Rattle.std.specs.Prelude.{◌≡◌, length};

use crate::texts::samples::two_names;
use instance_model::Instance;
use plan_desk::{Desk, Failed, MemDesk};
use plan_text::{PlanFault, read_plan, write_plan};
use std::alloc::Global;
use std::process::Abort;
use std::test::Fail;

/// The text is read as these two starts.
fn reads(
    rt: &impl Abort,
    alloc: Global,
    inst: &Instance,
    text: &[u8],
    first: Option<u32>,
    second: Option<u32>,
) {
    match read_plan(alloc, inst, text) {
        Ok(plan) => assert_eq!(rt; plan.as_slice(), [first, second].as_slice(), "{text:?}"),
        Err(fault) => panic!(rt; "{text:?} is refused: {fault}"),
    }
}

/// The text has this first fault.
fn refuses(rt: &impl Abort, alloc: Global, inst: &Instance, text: &[u8], fault: PlanFault) {
    match read_plan(alloc, inst, text) {
        Ok(_) => panic!(rt; "{text:?} is read"),
        Err(found) => assert_eq!(rt; found, fault, "{text:?}"),
    }
}

#[test]
fn reads_plans(rt: HostRuntime) -> Result<(), Fail> {
    let inst = two_names(rt.alloc())?;
    for (text, first, second) in [
        (b"".as_slice(), None, None),
        (b"\n \r\n", None, None),
        (b"N2 2\nN1 1\n", Some(1), Some(2)),
        (b"N1   1  \n\nN2 2", Some(1), Some(2)),
        (b"N1 1\r\nN2 2\r", Some(1), Some(2)),
        (b"N1 007\nN2 0", Some(7), Some(0)),
        (b"\n   \nN1 999999999 \n", Some(999_999_999), None),
    ] {
        reads(&rt, rt.alloc(), &inst, text, first, second);
    }
    Ok(())
}

#[test]
fn finds_bad_lines(rt: HostRuntime) -> Result<(), Fail> {
    let inst = two_names(rt.alloc())?;
    for (text, n) in [
        (b"N1 one".as_slice(), 1),
        (b" N1 1", 1),
        (b"N1\t1", 1),
        (b"N1", 1),
        (b"N1 1 2", 1),
        (b"N1 +1", 1),
        (b"N1 1\r\r", 1),
        (b"N1 0000000001", 1),
        (b"N1 1\nN1 x", 2),
        (b"N3 x", 1),
        (b"\nN1 1\n \nN1 x\nN3 1", 4),
    ] {
        refuses(&rt, rt.alloc(), &inst, text, PlanFault::BadLine { n });
    }
    Ok(())
}

#[test]
fn finds_wrong_names(rt: HostRuntime) -> Result<(), Fail> {
    let inst = two_names(rt.alloc())?;
    for (text, fault) in [
        (b"N1 1\nN1 2".as_slice(), PlanFault::Twice { n: 2 }),
        (b"N1 1\r\n\r\nN1 1\r\n", PlanFault::Twice { n: 3 }),
        (b"N3 1", PlanFault::UnknownName { n: 1 }),
        (b"\xff 1", PlanFault::UnknownName { n: 1 }),
        (b"N3 1\nN1 x", PlanFault::UnknownName { n: 1 }),
    ] {
        refuses(&rt, rt.alloc(), &inst, text, fault);
    }
    Ok(())
}

/// Writes the starts 512 and 7 to a new file.
fn write_two<D: Desk>(inst: &Instance, desk: &mut D) -> Result<(), Failed>
    requires { length inst.now.names ≡ 2 }
{
    desk.put_out("plan")?;
    write_plan(inst, &[512, 7], desk)
}

#[test]
fn writes_a_line_each(rt: HostRuntime) -> Result<(), Fail> {
    let inst = two_names(rt.alloc())?;
    let mut desk = MemDesk::make(rt.alloc());
    assert_eq!(rt; write_two(&inst, &mut desk), Ok(()));
    assert_eq!(rt; desk.file("plan"), Some(b"N1 512\nN2 7\n".as_slice()));
    Ok(())
}
