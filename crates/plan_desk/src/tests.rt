//! What no clause says: that calls succeed where memory is ample, and what the system does with real files.

ghost use Rattle.std.specs.Prelude.{◌<◌, OnOk};
ghost use Rattle.plan_desk.specs.Contents.{HoldsBytes};

use crate::{
    Bytes, Desk, DeskCall, Failed, MemDesk, ReadFault, RealDesk, read_all, say_all, write_all,
};
use std::alloc::{AllocError, Global};
use std::test::Fail;
use std::{env, fs, process};

const HELD: [u8; 5] = [1, 2, 3, 4, 5];

/// What is read of a file of five bytes, by pieces of at most so many, where the nth read fails.
fn read_of(
    alloc: Global,
    most: usize,
    limit: u64,
    failing: u32,
) -> Result<Result<Bytes, ReadFault>, AllocError>
    requires { 0 < most }
{
    let mut desk = MemDesk::make(alloc);
    desk.put_file("a", &HELD)?;
    desk.fail_at(DeskCall::Read, failing)?;
    desk.read_by(most);
    Ok(read_all(alloc, &mut desk, "a", limit))
}

/// What is read of a file that isn't there, beside one that is.
fn read_of_missing(alloc: Global) -> Result<Result<Bytes, ReadFault>, AllocError> {
    let mut desk = MemDesk::make(alloc);
    desk.put_file("a", &HELD)?;
    Ok(read_all(alloc, &mut desk, "b", 5))
}

/// Whether a call of this kind succeeds, after the calls that it needs.
fn succeeds(desk: &mut MemDesk, call: DeskCall) -> bool {
    let mut buf = [0; 2];
    match call {
        DeskCall::TakeIn => desk.take_in("a").is_ok(),
        DeskCall::Read => desk.take_in("a").is_ok() && desk.read(&mut buf).is_ok(),
        DeskCall::PutOut => desk.put_out("b").is_ok(),
        DeskCall::Write => desk.put_out("b").is_ok() && desk.write(&HELD).is_ok(),
        DeskCall::FinishOut => desk.put_out("b").is_ok() && desk.finish_out().is_ok(),
        DeskCall::Say => desk.say(&HELD).is_ok(),
    }
}

/// Which of three calls of this kind succeed, where the nth fails.
fn three_calls(alloc: Global, call: DeskCall, failing: u32) -> Result<[bool; 3], AllocError> {
    let mut desk = MemDesk::make(alloc);
    desk.put_file("a", &HELD)?;
    desk.fail_at(call, failing)?;
    let first = succeeds(&mut desk, call);
    let second = succeeds(&mut desk, call);
    let third = succeeds(&mut desk, call);
    Ok([first, second, third])
}

/// Writes a file of one piece, which it then holds, where that is told.
fn write_once<D: Desk>(desk: &mut D, name: &str, piece: &[u8]) -> Result<(), Failed>
    ensures { OnOk result (HoldsBytes (D.shows desk.new) name.now piece.now) }
{
    desk.put_out(name)?;
    write_all(desk, piece)?;
    desk.finish_out()
}

/// Writes a file, and then puts it out again and writes another piece.
fn write_twice<D: Desk>(desk: &mut D, name: &str) -> Result<(), Failed> {
    write_once(desk, name, &HELD)?;
    desk.put_out(name)?;
    write_all(desk, &HELD[..2])?;
    write_all(desk, &HELD[1..2])?;
    desk.finish_out()
}

/// What a file holds that was written twice, where the nth call of this kind fails, and whether the writing failed.
fn written_twice(
    alloc: Global,
    call: DeskCall,
    failing: u32,
) -> Result<(bool, Option<Vec<u8>>), AllocError> {
    let mut desk = MemDesk::make(alloc);
    desk.fail_at(call, failing)?;
    let failed = write_twice(&mut desk, "a").is_err();
    match desk.file("a") {
        Some(bytes) => Ok((failed, Some(bytes.to_vec(alloc)?))),
        None => Ok((failed, None)),
    }
}

/// What was said by two pieces.
fn said_twice(alloc: Global, failing: u32) -> Result<(bool, Vec<u8>), AllocError> {
    let mut desk = MemDesk::make(alloc);
    desk.fail_at(DeskCall::Say, failing)?;
    let failed = say_all(&mut desk, &HELD).is_err() || say_all(&mut desk, &HELD[3..]).is_err();
    Ok((failed, desk.spoken().to_vec(alloc)?))
}

#[test]
fn a_file_is_read_whole_or_refused(rt: HostRuntime) -> Result<(), Fail> {
    let alloc = rt.alloc();
    for most in [1, 2, 5, 4096] {
        let read = read_of(alloc, most, 5, 9)?;
        assert_eq!(rt; read?.as_slice(), HELD.as_slice(), "by {most}");
    }
    let cases = [
        (2, 4, 9, ReadFault::TooLong),
        (5, 0, 9, ReadFault::TooLong),
        // The limit is passed before the read that would fail.
        (2, 1, 2, ReadFault::TooLong),
        (2, 5, 2, ReadFault::Failed),
        (5, 5, 2, ReadFault::Failed),
    ];
    for (most, limit, failing, want) in cases {
        let read = read_of(alloc, most, limit, failing)?;
        assert!(rt;
            matches!(read, Err(fault) if fault == want),
            "by {most}, limit {limit}"
        );
    }
    assert!(rt; matches!(read_of_missing(alloc)?, Err(ReadFault::Failed)));
    Ok(())
}

#[test]
fn the_listed_call_fails_and_no_other(rt: HostRuntime) -> Result<(), Fail> {
    let calls = [
        DeskCall::TakeIn,
        DeskCall::Read,
        DeskCall::PutOut,
        DeskCall::Write,
        DeskCall::FinishOut,
        DeskCall::Say,
    ];
    for call in calls {
        for nth in 1..=3u32 {
            let done = three_calls(rt.alloc(), call, nth)?;
            assert_eq!(rt; done, [nth != 1, nth != 2, nth != 3], "{call:?} {nth}");
        }
    }
    Ok(())
}

#[test]
fn a_file_is_put_out_again(rt: HostRuntime) -> Result<(), Fail> {
    let cases = [
        (DeskCall::Write, 9, false, Some([1, 2, 2].as_slice())),
        (DeskCall::PutOut, 1, true, None),
        (DeskCall::Write, 1, true, Some([].as_slice())),
        (DeskCall::FinishOut, 1, true, Some(HELD.as_slice())),
        (DeskCall::PutOut, 2, true, Some(HELD.as_slice())),
        (DeskCall::Write, 2, true, Some([].as_slice())),
        (DeskCall::Write, 3, true, Some([1, 2].as_slice())),
        (DeskCall::FinishOut, 2, true, Some([1, 2, 2].as_slice())),
    ];
    for (call, nth, fails, want) in cases {
        let (failed, held) = written_twice(rt.alloc(), call, nth)?;
        assert_eq!(rt; failed, fails, "{call:?} {nth}");
        assert!(rt; held.as_deref() == want, "{call:?} {nth}");
    }
    Ok(())
}

#[test]
fn pieces_are_said_in_order(rt: HostRuntime) -> Result<(), Fail> {
    let (failed, said) = said_twice(rt.alloc(), 9)?;
    assert!(rt; !failed);
    assert_eq!(rt; said.as_slice(), [1, 2, 3, 4, 5, 4, 5].as_slice());
    let (failed, said) = said_twice(rt.alloc(), 2)?;
    assert!(rt; failed);
    assert_eq!(rt; said.as_slice(), HELD.as_slice());
    Ok(())
}

#[test]
fn a_real_file_is_written_and_read(rt: HostRuntime) -> Result<(), Fail> {
    let alloc = rt.alloc();
    let folder = env::temp_dir(&rt)?;
    let name = format!(in alloc;
        "{}/plan_desk_test_{}",
        folder.to_string_lossy(),
        process::id(rt.process())
    )?;
    let mut desk = RealDesk::make(rt, alloc);
    let written = write_twice(&mut desk, &name);
    let read = read_all(alloc, &mut desk, &name, 3);
    let cut = read_all(alloc, &mut desk, &name, 2);
    fs::remove_file(&rt, &name)?;
    let gone = read_all(alloc, &mut desk, &name, 3);
    assert!(rt; written.is_ok());
    assert_eq!(rt; read?.as_slice(), [1, 2, 2].as_slice());
    assert!(rt; matches!(cut, Err(ReadFault::TooLong)));
    assert!(rt; matches!(gone, Err(ReadFault::Failed)));
    assert!(rt; desk.put_out(folder.to_string_lossy()).is_err(), "a folder");
    Ok(())
}
