//! Runs of `solve`.

use crate::samples::{BANDED, EMPTY, STARTLESS, holds};
use command_frame::Source;
use command_solve::{SolveFiles, solve_files};
use plan_desk::{DeskCall, MemDesk};
use quantile_index::TreeRow;
use std::alloc::{AllocError, Global};
use std::test::Fail;

/// The report on the best plan of two interventions, without its last lines.
const FOUND: &[u8] = b"plan found\nscore 2000000000000000000\nbound 2000000000000000000\ngap 0\n\
cost 1.000000000000 1.000000000000\nmean 1.000000000000 1.000000000000\n\
excess 0.000000000000 0.000000000000\nsplits ";

/// The report on the plan without starts, whole.
const FOUND_EMPTY: &[u8] = b"plan found\nscore 0\nbound 0\ngap 0\n\
cost 0.000000000000 0.000000000000\nmean 0.000000000000 0.000000000000\n\
excess 0.000000000000 0.000000000000\nsplits 0\nmoves 0\nrounded 0\n";

const NONE: &[u8] = b"no plan exists\nsplits 0\nmoves 0\nrounded 0\n";

const NO_START: &[u8] = b"mpcert 2\nbound none\nlists 0\ntree\nempty 1\n";

/// A desk with an instance as the file I.
fn desk(alloc: Global, instance: &str) -> Result<MemDesk, AllocError> {
    let mut desk = MemDesk::make(alloc);
    desk.put_file("I", instance.as_bytes())?;
    Ok(desk)
}

/// Solves the file I with so many turns, to the files P, C and M.
fn solve(alloc: Global, turns: u32, desk: &mut MemDesk) -> u8 {
    let source = Source {
        instance: "I",
        slack: 0,
    };
    let files = SolveFiles {
        plan: "P",
        certificate: "C",
        trail: "M",
    };
    if turns > 1_000_000 {
        return 2;
    }
    solve_files::<TreeRow, MemDesk>(alloc, &source, &files, turns, desk)
}

/// Whether the file of this name is there and holds these bytes and more.
fn begins(desk: &MemDesk, name: &str, bytes: &[u8]) -> bool {
    match desk.file(name) {
        Some(held) => held.starts_with(bytes) && held.len() > bytes.len(),
        None => false,
    }
}

/// How many line feeds the file of this name has; none where it isn't there.
fn line_feeds(desk: &MemDesk, name: &str) -> usize {
    let mut count: usize = 0;
    if let Some(held) = desk.file(name) {
        for byte in held {
            if *byte == b'\n' {
                count = count.saturating_add(1);
            }
        }
    }
    count
}

/// Whether the file of this name has one line or two, each with its line feed.
fn has_one_line_or_two(desk: &MemDesk, name: &str) -> bool {
    let count = line_feeds(desk, name);
    match desk.file(name) {
        Some(held) => held.ends_with(b"\n") && (count == 1 || count == 2),
        None => false,
    }
}

#[test]
fn a_best_plan_is_found(rt: HostRuntime) -> Result<(), Fail> {
    let alloc = rt.alloc();
    let mut desk = desk(alloc, BANDED)?;
    assert_eq!(rt; solve(alloc, 3, &mut desk), 0);
    assert!(rt; desk.spoken().starts_with(FOUND));
    assert!(rt; holds(&desk, "P", b"I1 1\nI2 2\n"));
    assert!(rt;
        begins(
            &desk,
            "C",
            b"mpcert 2\nbound 2000000000000000000\nlists 1\nprices\n"
        )
    );
    assert!(rt; has_one_line_or_two(&desk, "M"));
    Ok(())
}

#[test]
fn without_turns_nothing_is_found(rt: HostRuntime) -> Result<(), Fail> {
    let alloc = rt.alloc();
    let mut desk = desk(alloc, BANDED)?;
    assert_eq!(rt; solve(alloc, 0, &mut desk), 9);
    assert!(rt; desk.spoken().starts_with(b"nothing found\nbound "));
    assert!(rt; desk.spoken().ends_with(b"\nsplits 0\nmoves 0\nrounded 0\n"));
    assert!(rt; holds(&desk, "M", b""));
    assert!(rt; desk.file("P").is_none());
    Ok(())
}

#[test]
fn no_plan_exists_without_a_start(rt: HostRuntime) -> Result<(), Fail> {
    let alloc = rt.alloc();
    let mut desk = desk(alloc, STARTLESS)?;
    assert_eq!(rt; solve(alloc, 3, &mut desk), 10);
    assert_eq!(rt; desk.spoken(), NONE);
    assert!(rt; holds(&desk, "C", NO_START));
    assert!(rt; holds(&desk, "M", b""));
    assert!(rt; desk.file("P").is_none());
    Ok(())
}

#[test]
fn the_plan_without_starts_is_found(rt: HostRuntime) -> Result<(), Fail> {
    let alloc = rt.alloc();
    let mut desk = desk(alloc, EMPTY)?;
    assert_eq!(rt; solve(alloc, 0, &mut desk), 0);
    assert_eq!(rt; desk.spoken(), FOUND_EMPTY);
    assert!(rt; holds(&desk, "P", b""));
    assert!(rt; holds(&desk, "M", b""));
    Ok(())
}

#[test]
fn a_write_that_fails_is_told(rt: HostRuntime) -> Result<(), Fail> {
    let alloc = rt.alloc();
    let mut desk = desk(alloc, STARTLESS)?;
    desk.fail_at(DeskCall::Write, 2)?;
    assert_eq!(rt; solve(alloc, 3, &mut desk), 8);
    assert_eq!(rt; desk.spoken(), b"refused write 4\n".as_slice());
    assert!(rt; !holds(&desk, "C", NO_START));
    assert!(rt; desk.file("M").is_none());
    Ok(())
}

#[test]
fn a_file_that_does_not_open_is_told(rt: HostRuntime) -> Result<(), Fail> {
    let alloc = rt.alloc();
    let mut desk = desk(alloc, STARTLESS)?;
    desk.fail_at(DeskCall::PutOut, 2)?;
    assert_eq!(rt; solve(alloc, 3, &mut desk), 8);
    assert_eq!(rt; desk.spoken(), b"refused write 5\n".as_slice());
    assert!(rt; holds(&desk, "C", NO_START));
    assert!(rt; desk.file("M").is_none());
    Ok(())
}
