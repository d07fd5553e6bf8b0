//! The command `repair`: the instance and the plan are read, their solution is made and written, and the report is
//! said.
ghost use Rattle.std.specs.Prelude.{◌≡◌, ◌≤◌, Some, IfOk, IfErr, OnOk};
ghost use Rattle.instance_model.specs.Limits.{standard_limits};
ghost use Rattle.instance_shape.specs.Ranges.{AreStandard};
ghost use Rattle.plan_desk.specs.Contents.{OnlyReads};
ghost use Rattle.command_frame.specs.Sources.{source_view};
ghost use Rattle.command_frame.specs.Writing.{IsWritablePlan, PutsFiles, TellsAnswer};
ghost use Rattle.command_frame.specs.Refusals.{CountsRefusal};
ghost use Rattle.command_repair.specs.Repairing.{AreDistinct, RunsRepair};
ghost use Rattle.command_repair.specs.Made.{AreRead, IsReadCause, out_writes, solution_writes, answer_of};
ghost use Rattle.command_repair.specs.Made.{IsWritable, files_view, TellsSolution};

use crate::solution::{Solution, solution_of};
use command_frame::{
    MEMORY_LINE, Refusal, Source, instance_of, plan_of, put_certificate, put_plan, refuse, say,
    say_written,
};
use instance_model::{Instance, Limits, Starts};
use plan_desk::Desk;
use plan_text::Plan;
use quantile_index::Row;
use std::alloc::Global;

/// The names of the files that are written: of the certificate, word 4, and of the repaired plan, word 5.
#[derive(Clone, Copy)]
pub struct RepairFiles<'a> {
    pub certificate: &'a str,
    pub out: &'a str,
}

/// What was read for a repair.
#[derive(Drop)]
struct Files {
    inst: Instance,
    plan: Plan,
}

/// Reads the instance and the plan, makes a plan with few changes and a certificate with so many turns, writes them,
/// and says the report.
///
/// Plans that change are kept over rows of this kind. The instance file is word 2, and the plan file word 3. No memory
/// is taken once the first file is opened.
pub fn repair_files<R: Row, D: Desk>(
    alloc: Global,
    source: &Source<'_>,
    plan: &str,
    files: &RepairFiles<'_>,
    turns: u32,
    desk: &mut D,
) -> u8
    requires small { source.now.slack ≤ 1_000_000_000 }
    requires turns { turns ≤ 1_000_000 }
    requires distinct { AreDistinct source.now.instance.now plan.now (files_view files.now) }
    ensures { RunsRepair standard_limits (source_view source.now) plan.now (files_view files.now) turns
        (D.shows desk.old) (D.shows desk.new) result }
{
    let limits = Limits::standard();
    match read_files(alloc, &limits, source, plan, desk) {
        Ok(read) => repair_read::<R, D>(alloc, &read, files, turns, desk),
        Err(refusal) => refuse(alloc, desk, &refusal),
    }
}

/// Reads the instance, then the plan.
fn read_files<D: Desk>(
    alloc: Global,
    limits: &Limits,
    source: &Source<'_>,
    plan: &str,
    desk: &mut D,
) -> Result<Files, Refusal>
    requires standard { AreStandard limits.now }
    requires small { source.now.slack ≤ 1_000_000_000 }
    ensures ok { IfOk result (λ files.
        AreRead limits.now (source_view source.now) plan.now (D.shows desk.old) files.inst files.plan) }
    ensures err { IfErr result
        (IsReadCause limits.now (source_view source.now) plan.now (D.shows desk.old) (D.shows desk.new)) }
    ensures faults { OnOk result ((D.shows desk.new).faults ≡ (D.shows desk.old).faults) }
    ensures kept { IfErr result (CountsRefusal (D.shows desk.old) (D.shows desk.new)) }
    ensures only_reads { OnlyReads (D.shows desk.old) (D.shows desk.new) }
{
    let inst = instance_of(alloc, limits, 2, source, desk)?;
    let plan = plan_of(alloc, limits, &inst, 3, plan, desk)?;
    Ok(Files { inst, plan })
}

/// Makes the solution of what was read, writes it, and says the report.
fn repair_read<R: Row, D: Desk>(
    alloc: Global,
    read: &Files,
    files: &RepairFiles<'_>,
    turns: u32,
    desk: &mut D,
) -> u8
    requires turns { turns ≤ 1_000_000 }
    ensures { TellsSolution read.now.inst read.now.plan (files_view files.now) turns (D.shows desk.old)
        (D.shows desk.new) result }
{
    match solution_of::<R>(alloc, &read.inst, read.plan.as_slice(), turns) {
        Ok(solution) => tell(&read.inst, files, &solution, desk),
        Err(_) => say(desk, 11, MEMORY_LINE.as_bytes()),
    }
}

/// Writes a solution, and says its report. Takes no memory.
fn tell<D: Desk>(inst: &Instance, files: &RepairFiles<'_>, solution: &Solution, desk: &mut D) -> u8
    requires { IsWritable inst.now solution.now }
    ensures { TellsAnswer (answer_of inst.now (files_view files.now) solution.now) (D.shows desk.old)
        (D.shows desk.new) result }
{
    let wrote = write_files(inst, files, solution, desk);
    say_written(desk, wrote, &solution.report)
}

/// Writes the certificate and, if there is one, the plan. The error is the word of the file that could not be written.
fn write_files<D: Desk>(
    inst: &Instance,
    files: &RepairFiles<'_>,
    solution: &Solution,
    desk: &mut D,
) -> Result<(), u64>
    requires { IsWritable inst.now solution.now }
    ensures { PutsFiles (solution_writes inst.now (files_view files.now) solution.now) (D.shows desk.old)
        (D.shows desk.new) result }
{
    match put_certificate(inst, &solution.certificate, files.certificate, desk) {
        Ok(()) => {}
        Err(_) => return Err(4),
    }
    match &solution.plan {
        Some(plan) => write_out(inst, files, plan, desk),
        None => Ok(()),
    }
}

/// Writes the plan.
fn write_out<D: Desk>(
    inst: &Instance,
    files: &RepairFiles<'_>,
    plan: &Starts,
    desk: &mut D,
) -> Result<(), u64>
    requires { IsWritablePlan inst.now plan.now }
    ensures { PutsFiles (out_writes inst.now (files_view files.now) (Some plan.now)) (D.shows desk.old)
        (D.shows desk.new) result }
{
    match put_plan(inst, plan.as_slice(), files.out, desk) {
        Ok(()) => Ok(()),
        Err(_) => Err(5),
    }
}
