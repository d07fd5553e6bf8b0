//! Runs of `roll`.

ghost use Rattle.std.specs.Prelude.{◌<◌};

use crate::samples::{EMPTY, desk};
use command_evaluate::evaluate_files;
use command_frame::Source;
use command_roll::{RollFiles, roll_files};
use instance_gen::generate;
use instance_model::Limits;
use plan_desk::{DeskCall, MemDesk};
use std::alloc::{AllocError, Global};
use std::test::Fail;

/// Two interventions that may start in either of two periods, and two scenarios a period.
pub(crate) const TWO: &str = r#"{"Resources":{"c":{"max":[10,10],"min":[0,0]}},"Seasons":{},
"Interventions":{
"I1":{"tmax":2,"Delta":[1,1],
"workload":{"c":{"1":{"1":6},"2":{"2":6}}},
"risk":{"1":{"1":[1,3]},"2":{"2":[5,5]}}},
"I2":{"tmax":2,"Delta":[1,1],
"workload":{"c":{"1":{"1":6},"2":{"2":6}}},
"risk":{"1":{"1":[2,2]},"2":{"2":[4,0]}}}},
"Exclusions":{},"T":2,"Scenarios_number":[2,2],
"Quantile":0.5,"Alpha":0.5}"#;

/// What is left of it from period 2 on, where the first one has begun; line feeds stand for nothing.
const LEFT: &str = r#"{"Resources":{"c":{"max":[10.000000000000,10.000000000000],
"min":[0.000000000000,0.000000000000]}},
"Seasons":{},"Interventions":{"I1":{"tmax":2,"Delta":[1,3],
"workload":{"c":{"1":{"1":6.000000000000}}},"risk":{"1":{"1":[1.000000000000,3.000000000000]}}},
"I2":{"tmax":2,"Delta":[3,1],"workload":{"c":{"2":{"2":6.000000000000}}},
"risk":{"2":{"2":[4.000000000000,0.000000000000]}}}},"Exclusions":{},"T":2,"Scenarios_number":[2,2],
"Quantile":0.500000,"Alpha":0.500000}"#;

/// A load of 0, and a season.
const IDLE: &str = r#"{"Resources":{"c":{"max":[1,1],"min":[0,0]}},"Seasons":{"w":[2,1]},
"Interventions":{"I\"1":{"tmax":1,"Delta":[2],"workload":{"c":{"1":{"1":0},"2":{"1":0.5}}},
"risk":{"1":{"1":[1]},"2":{"1":[-2]}}}},
"Exclusions":{"E":["I\"1","I\"1","w"]},"T":2,"Scenarios_number":[1,1],"Quantile":1,"Alpha":1}"#;

/// All of it, where it has not begun.
const LEFT_IDLE: &str = r#"{"Resources":{"c":{"max":[1.000000000000,1.000000000000],
"min":[0.000000000000,0.000000000000]}},
"Seasons":{"w":[1,2]},"Interventions":{"I\"1":{"tmax":1,"Delta":[2],
"workload":{"c":{"2":{"1":0.500000000000}}},"risk":{"1":{"1":[1.000000000000]},
"2":{"1":[-2.000000000000]}}}},"Exclusions":{"E":["I\"1","I\"1","w"]},"T":2,"Scenarios_number":[1,
1],"Quantile":1.000000,"Alpha":1.000000}"#;

/// What is left of no intervention at all, of 130 bytes.
const LEFT_EMPTY: &str = r#"{"Resources":{},"Seasons":{},"Interventions":{},"Exclusions":{},
"T":1,"Scenarios_number":[1],
"Quantile":1.000000,"Alpha":1.000000}"#;

/// The report on the plan of both, in what is left.
const FEASIBLE: &[u8] = b"feasible\nscore 2000000000000000000\n\
cost 1.000000000000 1.000000000000\nmean 2.000000000000 2.000000000000\n\
excess 0.000000000000 0.000000000000\nrounded 0\n";

/// Rolls the file I with the plan P from a period on, to the file O of at most so many bytes.
fn roll(alloc: Global, period: u32, most: u64, desk: &mut MemDesk) -> u8 {
    let files = RollFiles {
        instance: "I",
        plan: "P",
        out: "O",
    };
    let mut limits = Limits::standard();
    limits.instance_bytes = most;
    if period < 1 || period > 512 {
        return 2;
    }
    roll_files(alloc, &limits, &files, period, desk)
}

/// Evaluates a plan, as the file Q, in the file O.
fn evaluate_rolled(alloc: Global, plan: &str, desk: &mut MemDesk) -> Result<u8, AllocError> {
    desk.put_file("Q", plan.as_bytes())?;
    let source = Source {
        instance: "O",
        slack: 0,
    };
    Ok(evaluate_files(alloc, &source, "Q", desk))
}

/// Whether the file of this name is there and holds just these lines, one behind the other.
fn holds_lines(desk: &MemDesk, name: &str, lines: &str) -> bool {
    let Some(mut rest) = desk.file(name) else {
        return false;
    };
    for line in lines.lines() {
        match rest.strip_prefix(line.as_bytes()) {
            Some(behind) => rest = behind,
            None => return false,
        }
    }
    rest.is_empty()
}

#[test]
fn what_has_begun_is_kept(rt: HostRuntime) -> Result<(), Fail> {
    let alloc = rt.alloc();
    let mut desk = desk(alloc, TWO, "P", "I1 1\n")?;
    assert_eq!(rt; roll(alloc, 2, 2_147_483_647, &mut desk), 0);
    assert_eq!(rt;
        desk.spoken(),
        b"rolled\nkept 1\nfree 1\nrounded 0\n".as_slice()
    );
    assert!(rt; holds_lines(&desk, "O", LEFT));
    assert_eq!(rt; evaluate_rolled(alloc, "I1 1\nI2 2\n", &mut desk)?, 0);
    assert!(rt; desk.spoken().ends_with(FEASIBLE));
    assert_eq!(rt; evaluate_rolled(alloc, "I1 1\nI2 1\n", &mut desk)?, 1);
    assert!(rt;
        desk.spoken()
            .ends_with(b"\ninfeasible\nS3 I2 1\nrounded 0\n")
    );
    Ok(())
}

#[test]
fn loads_of_0_are_left_out(rt: HostRuntime) -> Result<(), Fail> {
    let alloc = rt.alloc();
    let mut desk = desk(alloc, IDLE, "P", "I\"1 1\n")?;
    assert_eq!(rt; roll(alloc, 1, 2_147_483_647, &mut desk), 0);
    assert_eq!(rt;
        desk.spoken(),
        b"rolled\nkept 0\nfree 1\nrounded 0\n".as_slice()
    );
    assert!(rt; holds_lines(&desk, "O", LEFT_IDLE));
    Ok(())
}

/// All tables of a drawn instance, as `roll` writes them if nothing has begun. The file of the instance is read in
/// pieces of at most so many bytes.
fn drawn_tables(alloc: Global, most: usize) -> Result<Vec<u8>, AllocError>
    requires some { 0 < most }
{
    let text = generate(alloc, 7, 40)?;
    let mut desk = MemDesk::make(alloc);
    desk.put_file("I", text.as_str().as_bytes())?;
    desk.put_file("P", b"")?;
    desk.read_by(most);
    roll(alloc, 1, 2_147_483_647, &mut desk);
    match desk.file("O") {
        Some(held) => Vec::from_slice(alloc, held),
        None => Ok(Vec::new(alloc)),
    }
}

#[test]
fn a_drawn_instance_is_the_same_in_pieces_of_each_size(rt: HostRuntime) -> Result<(), Fail> {
    let single = drawn_tables(rt.alloc(), 1)?;
    assert!(rt; single.len() > 269_957);
    assert!(rt; drawn_tables(rt.alloc(), 4096)?.as_slice() == single.as_slice());
    Ok(())
}

#[test]
fn a_kept_start_has_to_be_allowed(rt: HostRuntime) -> Result<(), Fail> {
    let alloc = rt.alloc();
    let mut desk = desk(alloc, TWO, "P", "I1 0\n")?;
    assert_eq!(rt; roll(alloc, 2, 2_147_483_647, &mut desk), 1);
    assert_eq!(rt;
        desk.spoken(),
        b"infeasible\nS2 I1 0\nrounded 0\n".as_slice()
    );
    assert!(rt; desk.file("O").is_none());
    Ok(())
}

#[test]
fn a_text_may_be_as_long_as_the_limit(rt: HostRuntime) -> Result<(), Fail> {
    let alloc = rt.alloc();
    let mut desk = desk(alloc, EMPTY, "P", "")?;
    assert_eq!(rt; roll(alloc, 1, 129, &mut desk), 12);
    assert_eq!(rt; desk.spoken(), b"refused output too long 5\n".as_slice());
    assert!(rt; desk.file("O").is_none());
    assert_eq!(rt; roll(alloc, 1, 130, &mut desk), 0);
    assert!(rt;
        desk.spoken()
            .ends_with(b"\nrolled\nkept 0\nfree 0\nrounded 0\n")
    );
    assert!(rt; holds_lines(&desk, "O", LEFT_EMPTY));
    Ok(())
}

#[test]
fn a_write_that_fails_is_told(rt: HostRuntime) -> Result<(), Fail> {
    let alloc = rt.alloc();
    let mut desk = desk(alloc, EMPTY, "P", "")?;
    desk.fail_at(DeskCall::Write, 1)?;
    assert_eq!(rt; roll(alloc, 1, 130, &mut desk), 8);
    assert_eq!(rt; desk.spoken(), b"refused write 5\n".as_slice());
    assert!(rt; holds_lines(&desk, "O", ""));
    Ok(())
}
