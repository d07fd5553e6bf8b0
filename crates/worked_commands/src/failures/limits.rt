//! Reads that fail of a file that is refused for another cause too.

use crate::failures::commands::{ANY, COMMANDS, Command, OLD, fresh_desk, rebound, roll};
use crate::failures::due::reads_of;
use plan_desk::{DeskCall, MemDesk};
use std::alloc::{AllocError, Global};
use std::test::Fail;

/// A text with a fault in its first byte, which is read in three pieces.
const FAULTY: [u8; 250] = [b']'; 250];

/// The status of a command on an instance file of this text, of which the nth read is to fail.
fn status_of_faulty(
    alloc: Global,
    command: Command,
    nth: u32,
    desk: &mut MemDesk,
) -> Result<u8, AllocError> {
    desk.put_file("I", &FAULTY)?;
    desk.fail_at(DeskCall::Read, nth)?;
    Ok(command.run(alloc, desk))
}

/// Whether no file was written.
fn are_old(command: Command, desk: &MemDesk) -> bool {
    for (_, name) in command.outputs() {
        if desk.file(name) != Some(OLD.as_bytes()) {
            return false;
        }
    }
    true
}

#[test]
fn a_read_that_fails_wins_over_a_fault_before_it(rt: HostRuntime) -> Result<(), Fail> {
    let alloc = rt.alloc();
    for command in COMMANDS {
        if command.inputs().is_empty() {
            continue;
        }
        for (nth, status, line) in [
            (1, 7, "refused read 2\n"),
            (2, 7, "refused read 2\n"),
            (4, 7, "refused read 2\n"),
            (5, 3, "refused instance syntax 0\n"),
        ] {
            let mut desk = fresh_desk(alloc)?;
            let answer = status_of_faulty(alloc, command, nth, &mut desk)?;
            assert_eq!(rt; answer, status, "{command:?} {nth}");
            assert_eq!(rt; desk.spoken(), line.as_bytes(), "{command:?} {nth}");
            assert!(rt; are_old(command, &desk), "{command:?} {nth}");
        }
    }
    Ok(())
}

/// The file that is longer than its limit.
#[derive(Clone, Copy, Debug)]
enum Long {
    Instance,
    Plan,
    Certificate,
}

/// The status of a command that reads such a file, whose limit an instance passes with its second read, and another
/// file with its first.
fn status_of_long(alloc: Global, long: Long, desk: &mut MemDesk) -> u8 {
    match long {
        Long::Instance => roll(alloc, 150, ANY, desk),
        Long::Plan => roll(alloc, ANY, 5, desk),
        Long::Certificate => rebound(alloc, 5, desk),
    }
}

/// How many reads come before those of such a file.
fn reads_before(long: Long) -> usize {
    match long {
        Long::Instance => 0,
        Long::Plan | Long::Certificate => reads_of("I"),
    }
}

#[test]
fn no_read_is_made_past_a_limit(rt: HostRuntime) -> Result<(), Fail> {
    let alloc = rt.alloc();
    for (long, read, status, line) in [
        (Long::Instance, 2, 7, "refused read 2\n"),
        (Long::Instance, 3, 3, "refused instance too long\n"),
        (Long::Plan, 1, 7, "refused read 3\n"),
        (Long::Plan, 2, 4, "refused plan too long\n"),
        (Long::Certificate, 1, 7, "refused read 3\n"),
        (Long::Certificate, 2, 5, "refused certificate too long\n"),
    ] {
        let mut desk = fresh_desk(alloc)?;
        let nth = reads_before(long).saturating_add(read);
        desk.fail_at(DeskCall::Read, u32::try_from(nth)?)?;
        let answer = status_of_long(alloc, long, &mut desk);
        assert_eq!(rt; answer, status, "{long:?} {read}");
        assert_eq!(rt; desk.spoken(), line.as_bytes(), "{long:?} {read}");
        assert!(rt; are_old(Command::Roll, &desk), "{long:?} {read}");
    }
    Ok(())
}
