//! The command `solve`: the instance is read, its solution is made and written, and the report is said.
ghost use Rattle.std.specs.Prelude.{◌≤◌, Some};
ghost use Rattle.instance_model.specs.Limits.{standard_limits};
ghost use Rattle.command_frame.specs.Sources.{source_view};
ghost use Rattle.command_frame.specs.Writing.{IsWritablePlan, PutsFiles, TellsAnswer};
ghost use Rattle.command_solve.specs.Solving.{AreDistinct, RunsSolve};
ghost use Rattle.command_solve.specs.Made.{plan_writes, solution_writes, answer_of, IsWritable};
ghost use Rattle.command_solve.specs.Made.{files_view, TellsSolution};

use crate::solution::{Solution, solution_of};
use command_frame::{
    MEMORY_LINE, Source, instance_of, put_certificate, put_moves, put_plan, refuse, say,
    say_written,
};
use instance_model::{Instance, Limits, Starts};
use plan_desk::Desk;
use quantile_index::Row;
use std::alloc::Global;

/// The names of the files that are written: of the plan, word 3, of the certificate, word 4, and of the trail, word 5.
#[derive(Clone, Copy)]
pub struct SolveFiles<'a> {
    pub plan: &'a str,
    pub certificate: &'a str,
    pub trail: &'a str,
}

/// Reads the instance, makes a plan, a certificate and a trail with so many turns, writes them, and says the report.
///
/// Plans that change are kept over rows of this kind. The instance file is word 2. No memory is taken once the first
/// file is opened.
pub fn solve_files<R: Row, D: Desk>(
    alloc: Global,
    source: &Source<'_>,
    files: &SolveFiles<'_>,
    turns: u32,
    desk: &mut D,
) -> u8
    requires small { source.now.slack ≤ 1_000_000_000 }
    requires turns { turns ≤ 1_000_000 }
    requires distinct { AreDistinct source.now.instance.now (files_view files.now) }
    ensures { RunsSolve standard_limits (source_view source.now) (files_view files.now) turns
        (D.shows desk.old) (D.shows desk.new) result }
{
    let limits = Limits::standard();
    match instance_of(alloc, &limits, 2, source, desk) {
        Ok(inst) => solve_instance::<R, D>(alloc, &inst, files, turns, desk),
        Err(refusal) => refuse(alloc, desk, &refusal),
    }
}

/// Makes the solution of an instance, writes it, and says the report.
fn solve_instance<R: Row, D: Desk>(
    alloc: Global,
    inst: &Instance,
    files: &SolveFiles<'_>,
    turns: u32,
    desk: &mut D,
) -> u8
    requires turns { turns ≤ 1_000_000 }
    ensures { TellsSolution inst.now (files_view files.now) turns (D.shows desk.old) (D.shows desk.new) result }
{
    match solution_of::<R>(alloc, inst, turns) {
        Ok(solution) => tell(inst, files, &solution, desk),
        Err(_) => say(desk, 11, MEMORY_LINE.as_bytes()),
    }
}

/// Writes a solution, and says its report. Takes no memory.
fn tell<D: Desk>(inst: &Instance, files: &SolveFiles<'_>, solution: &Solution, desk: &mut D) -> u8
    requires { IsWritable inst.now solution.now }
    ensures { TellsAnswer (answer_of inst.now (files_view files.now) solution.now) (D.shows desk.old)
        (D.shows desk.new) result }
{
    let wrote = write_files(inst, files, solution, desk);
    say_written(desk, wrote, &solution.report)
}

/// Writes the certificate, the trail and, if there is one, the plan. The error is the word of the file that could not
/// be written.
fn write_files<D: Desk>(
    inst: &Instance,
    files: &SolveFiles<'_>,
    solution: &Solution,
    desk: &mut D,
) -> Result<(), u64>
    requires { IsWritable inst.now solution.now }
    ensures { PutsFiles (solution_writes inst.now (files_view files.now) solution.now) (D.shows desk.old)
        (D.shows desk.new) result }
{
    match put_certificate(inst, &solution.certificate, files.certificate, desk) {
        Ok(()) => {}
        Err(_) => return Err(4),
    }
    match put_moves(inst, &solution.moves, files.trail, desk) {
        Ok(()) => {}
        Err(_) => return Err(5),
    }
    match &solution.plan {
        Some(plan) => write_best(inst, files, plan, desk),
        None => Ok(()),
    }
}

/// Writes the plan.
fn write_best<D: Desk>(
    inst: &Instance,
    files: &SolveFiles<'_>,
    plan: &Starts,
    desk: &mut D,
) -> Result<(), u64>
    requires { IsWritablePlan inst.now plan.now }
    ensures { PutsFiles (plan_writes inst.now (files_view files.now) (Some plan.now)) (D.shows desk.old)
        (D.shows desk.new) result }
{
    match put_plan(inst, plan.as_slice(), files.plan, desk) {
        Ok(()) => Ok(()),
        Err(_) => Err(3),
    }
}
