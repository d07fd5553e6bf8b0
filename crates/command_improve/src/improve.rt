//! The command `improve`: the instance and the plan are read, a better plan is made and written, and the report is
//! said.
ghost use Rattle.std.specs.Prelude.{◌≡◌, ◌≤◌, length, Some, IfOk, IfErr, IfSome, OnOk, option_copied};
ghost use Rattle.instance_model.specs.Limits.{standard_limits};
ghost use Rattle.instance_shape.specs.Ranges.{AreStandard};
ghost use Rattle.plan_desk.specs.Contents.{OnlyReads};
ghost use Rattle.command_frame.specs.Sources.{source_view};
ghost use Rattle.command_frame.specs.Writing.{IsWritablePlan, PutsFiles, TellsAnswer};
ghost use Rattle.command_frame.specs.Refusals.{CountsRefusal};
ghost use Rattle.command_improve.specs.Improving.{RunsImprove};
ghost use Rattle.command_improve.specs.Made.{AreRead, IsReadCause, out_writes, answer_of, TellsSolution};

use crate::solution::{Solution, solution_of};
use command_frame::{
    MEMORY_LINE, Refusal, Source, given_plan_of, instance_of, put_plan, refuse, say, say_written,
};
use instance_model::{Instance, Limits, Starts};
use plan_desk::Desk;
use plan_text::Plan;
use quantile_index::Row;
use std::alloc::Global;

/// What was read for an improvement.
#[derive(Drop)]
struct Files {
    inst: Instance,
    plan: Option<Plan>,
}

/// Reads the instance, and the plan if one is given, makes a better plan with so many thousand tries from a seed,
/// writes it, and says the report.
///
/// Plans that change are kept over rows of this kind. The instance file is word 2, the plan file word 3, and the file
/// that is written word 4. No memory is taken once it is opened.
pub fn improve_files<R: Row, D: Desk>(
    alloc: Global,
    source: &Source<'_>,
    plan: Option<&str>,
    out: &str,
    turns: u32,
    seed: u64,
    desk: &mut D,
) -> u8
    requires small { source.now.slack ≤ 1_000_000_000 }
    ensures { RunsImprove standard_limits (source_view source.now) (option_copied plan.entry) out.now turns seed
        (D.shows desk.old) (D.shows desk.new) result }
{
    let limits = Limits::standard();
    match read_files(alloc, &limits, source, plan, desk) {
        Ok(read) => improve_read::<R, D>(alloc, &read, out, turns, seed, desk),
        Err(refusal) => refuse(alloc, desk, &refusal),
    }
}

/// Reads the instance, then the plan if one is given.
fn read_files<D: Desk>(
    alloc: Global,
    limits: &Limits,
    source: &Source<'_>,
    plan: Option<&str>,
    desk: &mut D,
) -> Result<Files, Refusal>
    requires standard { AreStandard limits.now }
    requires small { source.now.slack ≤ 1_000_000_000 }
    ensures ok { IfOk result (λ files. AreRead limits.now (source_view source.now) (option_copied plan.entry)
        (D.shows desk.old) files.inst files.plan) }
    ensures err { IfErr result (IsReadCause limits.now (source_view source.now) (option_copied plan.entry)
        (D.shows desk.old) (D.shows desk.new)) }
    ensures faults { OnOk result ((D.shows desk.new).faults ≡ (D.shows desk.old).faults) }
    ensures kept { IfErr result (CountsRefusal (D.shows desk.old) (D.shows desk.new)) }
    ensures only_reads { OnlyReads (D.shows desk.old) (D.shows desk.new) }
{
    let inst = instance_of(alloc, limits, 2, source, desk)?;
    let plan = given_plan_of(alloc, limits, &inst, 3, plan, desk)?;
    Ok(Files { inst, plan })
}

/// Makes the solution of what was read, writes it, and says the report.
fn improve_read<R: Row, D: Desk>(
    alloc: Global,
    read: &Files,
    out: &str,
    turns: u32,
    seed: u64,
    desk: &mut D,
) -> u8
    requires { IfSome read.now.plan (λ plan. length plan ≡ length read.now.inst.names) }
    ensures { TellsSolution read.now.inst read.now.plan out.now turns (D.shows desk.old) (D.shows desk.new) result }
{
    match solution_of::<R>(alloc, &read.inst, &read.plan, turns, seed) {
        Ok(solution) => tell(&read.inst, out, &solution, desk),
        Err(_) => say(desk, 11, MEMORY_LINE.as_bytes()),
    }
}

/// Writes a solution, and says its report. Takes no memory.
fn tell<D: Desk>(inst: &Instance, out: &str, solution: &Solution, desk: &mut D) -> u8
    requires { IfSome solution.now.plan (IsWritablePlan inst.now) }
    ensures { TellsAnswer (answer_of inst.now out.now solution.now) (D.shows desk.old) (D.shows desk.new) result }
{
    let wrote = write_files(inst, out, solution, desk);
    say_written(desk, wrote, &solution.report)
}

/// Writes the plan, if there is one. The error is the word of the file that could not be written.
fn write_files<D: Desk>(
    inst: &Instance,
    out: &str,
    solution: &Solution,
    desk: &mut D,
) -> Result<(), u64>
    requires { IfSome solution.now.plan (IsWritablePlan inst.now) }
    ensures { PutsFiles (out_writes inst.now out.now solution.now.plan) (D.shows desk.old) (D.shows desk.new) result }
{
    match &solution.plan {
        Some(plan) => write_out(inst, out, plan, desk),
        None => Ok(()),
    }
}

/// Writes the plan.
fn write_out<D: Desk>(inst: &Instance, out: &str, plan: &Starts, desk: &mut D) -> Result<(), u64>
    requires { IsWritablePlan inst.now plan.now }
    ensures { PutsFiles (out_writes inst.now out.now (Some plan.now)) (D.shows desk.old) (D.shows desk.new) result }
{
    match put_plan(inst, plan.as_slice(), out, desk) {
        Ok(()) => Ok(()),
        Err(_) => Err(4),
    }
}
