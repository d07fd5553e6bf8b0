//! Allocations that fail, as `rt try --test --fail-alloc N` has the Nth one do: the run says that memory ran out, or the
//! desk fails to take what is written or said.

use crate::samples::{BANDED, desk};
use branch_search::Part;
use command_bound::bound_files;
use command_evaluate::evaluate_files;
use command_frame::Source;
use command_improve::improve_files;
use instance_model::Limits;
use plan_desk::MemDesk;
use quantile_index::TreeRow;
use std::test::Fail;

const SOURCE: Source<'static> = Source {
    instance: "I",
    slack: 0,
};

/// What a run of this status says first, which says this where it is done.
fn told(status: u8, done: &'static str) -> &'static str {
    match status {
        0 => done,
        8 => "",
        11 => "refused memory\n",
        _ => "another answer",
    }
}

#[test]
fn memory_may_run_out(rt: HostRuntime) -> Result<(), Fail> {
    let alloc = rt.alloc();
    let mut desk = desk(alloc, BANDED, "P", "I1 1\nI2 2\n")?;
    let status = evaluate_files(alloc, &SOURCE, "P", &mut desk);
    let report = "feasible\nscore 2000000000000000000\ncost 1.000000000000 1.000000000000\n\
        mean 1.000000000000 1.000000000000\nexcess 0.000000000000 0.000000000000\nrounded 0\n";
    assert_eq!(rt; desk.spoken(), told(status, report).as_bytes(), "{status}");
    Ok(())
}

#[test]
fn memory_may_run_out_for_a_bound(rt: HostRuntime) -> Result<(), Fail> {
    let alloc = rt.alloc();
    let mut desk = desk(alloc, BANDED, "P", "I1 1\nI2 2\n")?;
    desk.put_file(
        "C",
        b"mpcert 1\nbound 2000000000000000000\nlists 0\ntree\nsplit 1 1\nsplit 2 1\nband 1 1 over\ncost 0\ncost 0\n",
    )?;
    let limits = Limits::standard();
    let part = Part::whole();
    let status = bound_files(
        alloc,
        &limits,
        &SOURCE,
        Some("P"),
        Some("C"),
        "O",
        0,
        part,
        &mut desk,
    );
    let report = "bound 2000000000000000000\nscore 2000000000000000000\ngap 0\nlists ";
    assert!(rt;
        desk.spoken().starts_with(told(status, report).as_bytes()),
        "{status}"
    );
    Ok(())
}

#[test]
fn memory_may_run_out_for_an_improvement(rt: HostRuntime) -> Result<(), Fail> {
    let alloc = rt.alloc();
    let mut desk = desk(alloc, BANDED, "P", "I1 2\nI2 1\n")?;
    let status = improve_files::<TreeRow, MemDesk>(alloc, &SOURCE, Some("P"), "O", 1, 7, &mut desk);
    let report = "plan improved\nscore 2000000000000000000\nbefore 4000000000000000000\n";
    assert!(rt;
        desk.spoken().starts_with(told(status, report).as_bytes()),
        "{status}"
    );
    Ok(())
}
