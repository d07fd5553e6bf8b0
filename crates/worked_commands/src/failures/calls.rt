//! The table of failing calls: each kind, each call of it that a run makes, and each command.

use crate::failures::commands::{COMMANDS, Command, OLD, fresh_desk};
use crate::failures::due::{Case, Ran, are_all};
use plan_desk::DeskCall;
use std::alloc::{AllocError, Global};
use std::test::Fail;

const KINDS: [DeskCall; 6] = [
    DeskCall::TakeIn,
    DeskCall::Read,
    DeskCall::PutOut,
    DeskCall::Write,
    DeskCall::FinishOut,
    DeskCall::Say,
];

/// More calls of a kind than any of these runs makes.
const MANY: u32 = 1000;

/// How many later calls fail too.
const LATER: u32 = 20;

/// Runs a command over a fresh desk, of which the nth call of a kind is to fail if one is given.
fn ran(
    alloc: Global,
    command: Command,
    failing: Option<(DeskCall, u32)>,
) -> Result<Ran, AllocError> {
    let mut desk = fresh_desk(alloc)?;
    if let Some((call, nth)) = failing {
        desk.fail_at(call, nth)?;
    }
    let status = command.run(alloc, &mut desk);
    Ok(Ran { status, desk })
}

/// Runs a command over a fresh desk, of which the nth call of a kind and all later ones are to fail, and each that says
/// something.
fn ran_on(alloc: Global, command: Command, call: DeskCall, nth: u32) -> Result<Ran, AllocError> {
    let mut desk = fresh_desk(alloc)?;
    for more in 0..LATER {
        desk.fail_at(call, nth.saturating_add(more))?;
        if call != DeskCall::Say {
            desk.fail_at(DeskCall::Say, more + 1)?;
        }
    }
    let status = command.run(alloc, &mut desk);
    Ok(Ran { status, desk })
}

/// Whether each call of this kind that a run makes, failing alone, leaves what is due, and no less than where the later
/// calls fail too: no other call is made after it, but to say the line of the file.
fn are_told(alloc: Global, command: Command, call: DeskCall) -> Result<bool, AllocError> {
    let clean = ran(alloc, command, None)?;
    for before in 0..MANY {
        let ran = ran(alloc, command, Some((call, before + 1)))?;
        let case = Case {
            command,
            clean: &clean,
            ran: &ran,
        };
        if case.is_clean() {
            return Ok(are_all(command, call, before as usize));
        }
        if !case.is_due(alloc, call, before as usize)? {
            return Ok(false);
        }
        if !case.is_last(call, &ran_on(alloc, command, call, before + 1)?) {
            return Ok(false);
        }
    }
    Ok(false)
}

/// Whether a run without a failing call ends well, says something, and writes something to each of its files.
fn is_done(alloc: Global, command: Command) -> Result<bool, AllocError> {
    let ran = ran(alloc, command, None)?;
    for (_, name) in command.outputs() {
        if !is_new(ran.desk.file(name)) {
            return Ok(false);
        }
    }
    Ok(ran.status == 0 && !ran.desk.spoken().is_empty())
}

fn is_new(held: Option<&[u8]>) -> bool {
    match held {
        Some(bytes) => !bytes.is_empty() && bytes != OLD.as_bytes(),
        None => false,
    }
}

#[test]
fn without_a_failing_call_each_command_is_done(rt: HostRuntime) -> Result<(), Fail> {
    for command in COMMANDS {
        assert!(rt; is_done(rt.alloc(), command)?, "{command:?}");
    }
    Ok(())
}

#[test]
fn a_failing_call_is_told_at_each_place(rt: HostRuntime) -> Result<(), Fail> {
    for command in COMMANDS {
        for call in KINDS {
            assert!(rt;
                are_told(rt.alloc(), command, call)?,
                "{command:?} {call:?}"
            );
        }
    }
    Ok(())
}
