//! The commands of the programs, over the same files in memory.

use crate::samples::BANDED;
use branch_search::Part;
use command_audit::audit_files;
use command_bound::bound_files;
use command_check::{check_files, check_files_by};
use command_evaluate::evaluate_files;
use command_frame::Source;
use command_improve::improve_files;
use command_rebound::{rebound_files, rebound_files_by};
use command_rehearse::rehearse_drawn;
use command_repair::{RepairFiles, repair_files};
use command_replay::replay_files;
use command_roll::{RollFiles, roll_files};
use command_solve::{SolveFiles, solve_files};
use command_table::table_files;
use instance_model::Limits;
use plan_desk::MemDesk;
use quantile_index::TreeRow;
use refined_files::VersionedCertificate;
use std::alloc::{AllocError, Global};

/// A certificate of `BANDED`, with a bound that no change of a start lowers.
const CERTIFICATE: &str =
    "mpcert 1\nbound 0\nlists 0\ntree\nsplit 1 1\nsplit 2 1\nband 1 1 over\ncost 0\ncost 0\n";

/// A certificate of version 3 with two leaves.
const REFINED: &str = "mpcert 3\nbound 0\nlists 0\ntree\nsplit 1 1\ncost 0\ncost 0\n";

/// What the files hold that a command may write.
pub(crate) const OLD: &str = "old\n";

/// The files of a desk with their texts. Those behind the certificates may be written.
pub(crate) const FILES: [(&str, &str); 8] = [
    ("I", BANDED),
    ("P", "I1 1\nI2 2\n"),
    ("S", "swap I1 I2\nundo\n"),
    ("C", CERTIFICATE),
    ("R", REFINED),
    ("D", OLD),
    ("M", OLD),
    ("O", OLD),
];

/// How many bytes of a file a read gives at most.
pub(crate) const PIECE: usize = 100;

/// As many bytes as no file here has.
pub(crate) const ANY: u64 = 1_000_000;

/// The number of a word of a command, and the name of its file.
pub(crate) type Word = (u64, &'static str);

const SOURCE: Source<'static> = Source {
    instance: "I",
    slack: 0,
};

/// A command with its words. `CheckAlone` is `check` without a plan. `CheckRefined` and `ReboundRefined` take a
/// certificate of any version.
#[derive(Clone, Copy, Debug)]
pub(crate) enum Command {
    Evaluate,
    Replay,
    Check,
    CheckAlone,
    Solve,
    Table,
    Rebound,
    Roll,
    Rehearse,
    Repair,
    Audit,
    CheckRefined,
    ReboundRefined,
    Bound,
    Improve,
}

pub(crate) const COMMANDS: [Command; 15] = [
    Command::Evaluate,
    Command::Replay,
    Command::Check,
    Command::CheckAlone,
    Command::Solve,
    Command::Table,
    Command::Rebound,
    Command::Roll,
    Command::Rehearse,
    Command::Repair,
    Command::Audit,
    Command::CheckRefined,
    Command::ReboundRefined,
    Command::Bound,
    Command::Improve,
];

impl Command {
    /// The files that it reads, in this order.
    pub fn inputs(self) -> &'static [Word] {
        match self {
            Command::Evaluate
            | Command::Table
            | Command::Roll
            | Command::Repair
            | Command::Improve => &[(2, "I"), (3, "P")],
            Command::Replay => &[(2, "I"), (3, "P"), (4, "S")],
            Command::Check | Command::Audit => &[(2, "I"), (3, "P"), (4, "C")],
            Command::CheckAlone => &[(2, "I"), (4, "C")],
            Command::CheckRefined | Command::Bound => &[(2, "I"), (3, "P"), (4, "R")],
            Command::Rebound => &[(2, "I"), (3, "C")],
            Command::ReboundRefined => &[(2, "I"), (3, "R")],
            Command::Solve => &[(2, "I")],
            Command::Rehearse => &[],
        }
    }

    /// The files that it writes, in this order.
    pub fn outputs(self) -> &'static [Word] {
        match self {
            Command::Solve => &[(4, "D"), (5, "M"), (3, "O")],
            Command::Rebound | Command::ReboundRefined | Command::Improve => &[(4, "O")],
            Command::Roll | Command::Bound => &[(5, "O")],
            Command::Repair => &[(4, "D"), (5, "O")],
            _ => &[],
        }
    }

    /// Runs it over a desk, and answers the status.
    pub fn run(self, alloc: Global, desk: &mut MemDesk) -> u8 {
        match self {
            Command::Evaluate => evaluate_files(alloc, &SOURCE, "P", desk),
            Command::Replay => replay(alloc, desk),
            Command::Check => check_files(alloc, &SOURCE, Some("P"), "C", desk),
            Command::CheckAlone => check_files(alloc, &SOURCE, None, "C", desk),
            Command::Solve => solve(alloc, desk),
            Command::Table => table_files(alloc, &SOURCE, "P", 1, 2, desk),
            Command::Rebound => rebound(alloc, ANY, desk),
            Command::Roll => roll(alloc, ANY, ANY, desk),
            Command::Rehearse => rehearse(alloc, desk),
            Command::Repair => repair(alloc, desk),
            Command::Audit => audit_files(alloc, &SOURCE, "P", "C", desk),
            Command::CheckRefined => check_refined(alloc, desk),
            Command::ReboundRefined => rebound_refined(alloc, desk),
            Command::Bound => bound(alloc, desk),
            Command::Improve => improve(alloc, desk),
        }
    }
}

fn replay(alloc: Global, desk: &mut MemDesk) -> u8 {
    replay_files::<TreeRow, MemDesk>(alloc, &SOURCE, "P", "S", desk)
}

/// With three turns.
fn solve(alloc: Global, desk: &mut MemDesk) -> u8 {
    let files = SolveFiles {
        plan: "O",
        certificate: "D",
        trail: "M",
    };
    solve_files::<TreeRow, MemDesk>(alloc, &SOURCE, &files, 3, desk)
}

/// Runs `rebound`, where a certificate may have so many bytes and no more than by default.
pub(crate) fn rebound(alloc: Global, bytes: u64, desk: &mut MemDesk) -> u8 {
    let mut limits = Limits::standard();
    limits.certificate_bytes = limits.certificate_bytes.min(bytes);
    rebound_files(alloc, &limits, &SOURCE, "C", "O", desk)
}

/// Runs `roll` from period 2 on, where an instance and a plan may have so many bytes.
pub(crate) fn roll(alloc: Global, instance: u64, plan: u64, desk: &mut MemDesk) -> u8 {
    let files = RollFiles {
        instance: "I",
        plan: "P",
        out: "O",
    };
    let mut limits = Limits::standard();
    limits.instance_bytes = instance;
    limits.plan_bytes = plan;
    roll_files(alloc, &limits, &files, 2, desk)
}

/// With one intervention.
fn rehearse(alloc: Global, desk: &mut MemDesk) -> u8 {
    rehearse_drawn::<TreeRow, MemDesk>(alloc, 0, 1, desk)
}

/// With three turns.
fn repair(alloc: Global, desk: &mut MemDesk) -> u8 {
    let files = RepairFiles {
        certificate: "D",
        out: "O",
    };
    repair_files::<TreeRow, MemDesk>(alloc, &SOURCE, "P", &files, 3, desk)
}

fn check_refined(alloc: Global, desk: &mut MemDesk) -> u8 {
    check_files_by::<VersionedCertificate, MemDesk>(alloc, &SOURCE, Some("P"), "R", desk)
}

fn rebound_refined(alloc: Global, desk: &mut MemDesk) -> u8 {
    let limits = Limits::standard();
    rebound_files_by::<VersionedCertificate, MemDesk>(alloc, &limits, &SOURCE, "R", "O", desk)
}

/// Without a turn.
fn bound(alloc: Global, desk: &mut MemDesk) -> u8 {
    let limits = Limits::standard();
    let part = Part::whole();
    bound_files(
        alloc,
        &limits,
        &SOURCE,
        Some("P"),
        Some("R"),
        "O",
        0,
        part,
        desk,
    )
}

/// Without a turn.
fn improve(alloc: Global, desk: &mut MemDesk) -> u8 {
    improve_files::<TreeRow, MemDesk>(alloc, &SOURCE, Some("P"), "O", 0, 7, desk)
}

/// A desk with all files, which are read by small pieces.
pub(crate) fn fresh_desk(alloc: Global) -> Result<MemDesk, AllocError> {
    let mut desk = MemDesk::make(alloc);
    for (name, text) in FILES {
        desk.put_file(name, text.as_bytes())?;
    }
    desk.read_by(PIECE);
    Ok(desk)
}
