//! Rows of sums of other kinds than the one of the programs.

use crate::roll::TWO;
use crate::samples::desk;
use command_frame::Source;
use command_rehearse::rehearse_drawn;
use command_replay::replay_files;
use command_solve::{SolveFiles, solve_files};
use fixed_num::{Steps, Sum};
use plan_desk::MemDesk;
use quantile_index::{FlatRow, Row, TreeRow};
use std::alloc::{AllocError, Global};
use std::sync::ledger::Ledger;
use std::test::Fail;

const SOURCE: Source<'static> = Source {
    instance: "I",
    slack: 0,
};

const SCRIPT: &[u8] = b"swap I1 I2\nmove I2 2\nundo\nundo\nundo\n";

const KEYS: &[u8] = b"0 0 2000000000000000000\n1 0 3500000000000000000\n\
2 2000000000000 3500000000000000000\n3 0 3500000000000000000\n4 0 2000000000000000000\n\
refused script nothing to undo 5\n";

const MEMORY: &[u8] = b"refused memory\n";

/// A row for which there is never memory.
#[derive(Drop)]
struct NoRow {
    row: FlatRow,
}

impl Row for NoRow {
    ghost use Rattle.std.specs.Prelude.{None};

    ghost sums = { λ r. r.row };

    ghost most = { None };

    fn make(_: Global, _: &[Sum]) -> Result<Self, AllocError> {
        Err(AllocError)
    }

    fn len(&self) -> u32 {
        self.row.len()
    }

    fn get(&self, k: u32) -> Sum {
        self.row.get(k)
    }

    fn replace<L: Ledger>(&mut self, k: u32, sum: Sum, steps: &mut Steps<L>) {
        self.row.replace(k, sum, steps);
    }

    fn replace_all<L: Ledger>(&mut self, from: &[Sum], steps: &mut Steps<L>) {
        self.row.replace_all(from, steps);
    }

    fn kth<L: Ledger>(&self, m: u32, steps: &mut Steps<L>) -> Sum {
        self.row.kth(m, steps)
    }

    ghost grows = { tt };
}

/// Whether a replay over rows of this kind ends with this status, and says just this.
fn is_replayed<R: Row>(alloc: Global, status: u8, told: &[u8]) -> Result<bool, AllocError> {
    let mut desk = desk(alloc, TWO, "P", "I1 1\nI2 2\n")?;
    desk.put_file("S", SCRIPT)?;
    let answer = replay_files::<R, MemDesk>(alloc, &SOURCE, "P", "S", &mut desk);
    Ok(answer == status && desk.spoken() == told)
}

#[test]
fn rows_hold_the_keys(rt: HostRuntime) -> Result<(), Fail> {
    let alloc = rt.alloc();
    assert!(rt; is_replayed::<TreeRow>(alloc, 6, KEYS)?);
    assert!(rt; is_replayed::<FlatRow>(alloc, 6, KEYS)?);
    assert!(rt; is_replayed::<NoRow>(alloc, 11, MEMORY)?);
    let mut desk = MemDesk::make(alloc);
    assert_eq!(rt;
        rehearse_drawn::<NoRow, MemDesk>(alloc, 7, 40, &mut desk),
        11
    );
    Ok(())
}

#[test]
fn rows_hold_the_sums_of_a_descent(rt: HostRuntime) -> Result<(), Fail> {
    let alloc = rt.alloc();
    let mut desk = desk(alloc, TWO, "P", "")?;
    let files = SolveFiles {
        plan: "O",
        certificate: "C",
        trail: "M",
    };
    assert_eq!(rt;
        solve_files::<NoRow, MemDesk>(alloc, &SOURCE, &files, 3, &mut desk),
        11
    );
    assert_eq!(rt; desk.spoken(), MEMORY);
    assert!(rt; desk.file("C").is_none() && desk.file("M").is_none());
    Ok(())
}
