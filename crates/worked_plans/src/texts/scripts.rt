//! Scripts read, and changes written, over the interventions N1 and N2.
ghost use Rattle.std.specs.Prelude.{◌≡◌, [], ◌∷◌, IfOk, All};
ghost use Rattle.plan_moves.specs.Scripts.{NamesKnown, line_of};
ghost use Rattle.plan_moves.specs.declared.change.Change.TheVariants.{Move, Swap};
ghost use Rattle.move_script.specs.Spelling.{HasSmallStart};

use crate::texts::samples::two_names;
use instance_model::Instance;
use move_script::{ScriptFault, read_script, write_moves};
use plan_desk::{Desk, Failed, MemDesk};
use plan_moves::{Change, Moves, ScriptLine};
use std::alloc::{AllocError, Global};
use std::process::Abort;
use std::test::Fail;

/// The text is read as these lines.
fn reads(rt: &impl Abort, alloc: Global, inst: &Instance, text: &[u8], lines: &[ScriptLine]) {
    match read_script(alloc, inst, text) {
        Ok(script) => assert_eq!(rt; script.as_slice(), lines, "{text:?}"),
        Err(fault) => panic!(rt; "{text:?} is refused: {fault}"),
    }
}

/// The text has this first fault.
fn refuses(rt: &impl Abort, alloc: Global, inst: &Instance, text: &[u8], fault: ScriptFault) {
    match read_script(alloc, inst, text) {
        Ok(_) => panic!(rt; "{text:?} is read"),
        Err(found) => assert_eq!(rt; found, fault, "{text:?}"),
    }
}

#[test]
fn reads_scripts(rt: HostRuntime) -> Result<(), Fail> {
    let inst = two_names(rt.alloc())?;
    reads(&rt, rt.alloc(), &inst, b"", &[]);
    reads(&rt, rt.alloc(), &inst, b"undo", &[ScriptLine::Undo]);
    reads(
        &rt,
        rt.alloc(),
        &inst,
        b"move N1 0\nmove N2 999999999\n",
        &[
            ScriptLine::Move { i: 0, s: 0 },
            ScriptLine::Move {
                i: 1,
                s: 999_999_999,
            },
        ],
    );
    reads(
        &rt,
        rt.alloc(),
        &inst,
        b"swap N2 N1\nswap N1 N1\nundo",
        &[
            ScriptLine::Swap { i: 1, j: 0 },
            ScriptLine::Swap { i: 0, j: 0 },
            ScriptLine::Undo,
        ],
    );
    Ok(())
}

#[test]
fn finds_bad_lines(rt: HostRuntime) -> Result<(), Fail> {
    let inst = two_names(rt.alloc())?;
    for text in [
        b"\n".as_slice(),
        b"move N1 01",
        b"move N1 1234567890",
        b"move N1 ",
        b"move N1",
        b"move  1",
        b"move N1  1",
        b"move N1 1 ",
        b"move N1 1\r",
        b"move N1 -1",
        b" undo",
        b"undo\r",
        b"undo 1",
        b"swap N1",
        b"swap N1 ",
        b"swap N1 N2 ",
        b"swap N1  N2",
        b"swap N1 N2 N1",
        b"Move N1 1",
    ] {
        refuses(&rt, rt.alloc(), &inst, text, ScriptFault::BadLine { n: 1 });
    }
    refuses(
        &rt,
        rt.alloc(),
        &inst,
        b"undo\n\nmove N3 1",
        ScriptFault::BadLine { n: 2 },
    );
    Ok(())
}

#[test]
fn finds_unknown_names(rt: HostRuntime) -> Result<(), Fail> {
    let inst = two_names(rt.alloc())?;
    for text in [
        b"swap N1 N3".as_slice(),
        b"swap N3 N1",
        b"swap N1 N2\r",
        b"move N3 1",
        b"move \xff 1",
        b"move N\t1 1",
        b"move N3 1\nmove N1 01",
    ] {
        refuses(
            &rt,
            rt.alloc(),
            &inst,
            text,
            ScriptFault::UnknownName { n: 1 },
        );
    }
    refuses(
        &rt,
        rt.alloc(),
        &inst,
        b"undo\nswap N1 N2\nswap N2 N\n",
        ScriptFault::UnknownName { n: 3 },
    );
    Ok(())
}

/// A move of each intervention, and their exchange.
fn three_moves(alloc: Global) -> Result<Moves, AllocError>
    ensures { IfOk result (λ moves. moves ≡ Move 0 512 ∷ Swap 1 0 ∷ Move 1 0 ∷ []) }
{
    Ok(Moves::from_vec(vec![in alloc;
        Change::Move { i: 0, s: 512 },
        Change::Swap { i: 1, j: 0 },
        Change::Move { i: 1, s: 0 },
    ]?))
}

/// Writes the changes to a new file.
fn write_to_file<D: Desk>(inst: &Instance, moves: &Moves, desk: &mut D) -> Result<(), Failed>
    requires known { All (λ change. NamesKnown inst.now (line_of change)) moves.now }
    requires small { All HasSmallStart moves.now }
{
    desk.put_out("moves")?;
    write_moves(inst, moves, desk)
}

#[test]
fn writes_a_line_each(rt: HostRuntime) -> Result<(), Fail> {
    let inst = two_names(rt.alloc())?;
    let moves = three_moves(rt.alloc())?;
    let mut desk = MemDesk::make(rt.alloc());
    assert_eq!(rt; write_to_file(&inst, &moves, &mut desk), Ok(()));
    assert_eq!(rt;
        desk.file("moves"),
        Some(b"move N1 512\nswap N2 N1\nmove N2 0\n".as_slice())
    );
    Ok(())
}
