//! The command `roll`: both files are read, the text of the rolled instance is written, and the report is said.
ghost use Rattle.std.specs.Prelude.{◌≡◌, ◌<◌, ◌≤◌, length, IfOk, IfErr, OnOk};
ghost use Rattle.instance_shape.specs.Ranges.{AreStandard};
ghost use Rattle.plan_desk.specs.Contents.{OnlyReads};
ghost use Rattle.plan_roll.specs.Texts.{rolled_text as text_of};
ghost use Rattle.command_frame.specs.Files.{reading};
ghost use Rattle.command_frame.specs.Refusals.{CountsRefusal, IsDueAs};
ghost use Rattle.command_frame.specs.Writing.{PutsFile, TellsAnswer};
ghost use Rattle.command_roll.specs.Rolling.{RollFiles as RollNames, Rolls, AnswersRoll, RunsRoll};
ghost use Rattle.command_roll.specs.Made.{files_view, rolled_answer, answer_of};

use crate::report::rolled_text;
use command_frame::{
    Refusal, Source, Text, WRITE_WORDS, infeasible_text, instance_of, plan_of, refuse, refuse_long,
    say, say_numbered,
};
use instance_model::{Instance, Limits};
use plan_desk::{Desk, Failed};
use plan_roll::{kept_fault, plans_roll, rolled_length, rolled_text_is_read, write_rolled};
use plan_text::Plan;
use std::alloc::{AllocError, Global};

/// The names of the files: of the instance, word 2, of the plan, word 3, and of the one that is written, word 5.
#[derive(Clone, Copy)]
pub struct RollFiles<'a> {
    pub instance: &'a str,
    pub plan: &'a str,
    pub out: &'a str,
}

/// What is answered to an instance and a plan, with what is said.
#[derive(Drop)]
enum Outcome {
    /// The first kept start that isn't allowed.
    Broken(Text),
    /// The text of the rolled instance has more bytes than an instance file may have.
    TooLong,
    /// That text is to be written.
    Rolled(Text),
}

/// What was read, and what is answered to it.
#[derive(Drop)]
struct Rolling {
    inst: Instance,
    plan: Plan,
    outcome: Outcome,
}

/// Writes the instance in which the interventions that start before `period` keep their starts, and the others may only
/// start in that period or later, and says the report.
///
/// The instance is word 2, the plan word 3, the period word 4, and the file that is written word 5. No memory is taken
/// once that file is opened.
pub fn roll_files<D: Desk>(
    alloc: Global,
    limits: &Limits,
    files: &RollFiles<'_>,
    period: u32,
    desk: &mut D,
) -> u8
    requires standard { AreStandard limits.now }
    requires from { 1 ≤ period }
    requires to { period ≤ 512 }
    ensures { RunsRoll limits.now (files_view files.now) period (D.shows desk.old) (D.shows desk.new) result }
{
    rolled_text_is_read();
    plans_roll();
    match roll(alloc, limits, files, period, desk) {
        Ok(rolling) => tell(files, &rolling, period, desk),
        Err(refusal) => refuse(alloc, desk, &refusal),
    }
}

/// Reads the instance, then the plan, and makes the report.
fn roll<D: Desk>(
    alloc: Global,
    limits: &Limits,
    files: &RollFiles<'_>,
    period: u32,
    desk: &mut D,
) -> Result<Rolling, Refusal>
    requires standard { AreStandard limits.now }
    requires from { 1 ≤ period }
    requires to { period ≤ 512 }
    ensures ok { IfOk result (λ r. AnswersRoll limits.now (reading (D.shows desk.old) (D.shows desk.new))
        files.now.instance.now files.now.plan.now period (files_view files.now)
        (answer_of (files_view files.now) r.inst r.plan period r.outcome)) }
    ensures each { IfOk result (λ r. length r.plan ≡ length r.inst.names) }
    ensures err { IfErr result (IsDueAs (AnswersRoll limits.now (reading (D.shows desk.old) (D.shows desk.new))
        files.now.instance.now files.now.plan.now period (files_view files.now))) }
    ensures faults { OnOk result ((D.shows desk.new).faults ≡ (D.shows desk.old).faults) }
    ensures kept { IfErr result (CountsRefusal (D.shows desk.old) (D.shows desk.new)) }
    ensures only_reads { OnlyReads (D.shows desk.old) (D.shows desk.new) }
{
    let source = Source {
        instance: files.instance,
        slack: 0,
    };
    let inst = instance_of(alloc, limits, 2, &source, desk)?;
    let plan = plan_of(alloc, limits, &inst, 3, files.plan, desk)?;
    match outcome_of(alloc, limits, &inst, &plan, period) {
        Ok(outcome) => Ok(Rolling {
            inst,
            plan,
            outcome,
        }),
        Err(_) => Err(Refusal::Memory),
    }
}

/// What is answered to an instance and a plan.
fn outcome_of(
    alloc: Global,
    limits: &Limits,
    inst: &Instance,
    plan: &Plan,
    period: u32,
) -> Result<Outcome, AllocError>
    requires each { length plan.now ≡ length inst.now.names }
    requires from { 1 ≤ period }
    requires to { period ≤ 512 }
    ensures { IfOk result (λ outcome. (files : RollNames) → Rolls limits.now inst.now plan.now period files
        (answer_of files inst.now plan.now period outcome)) }
{
    if let Some(rule) = kept_fault(inst, plan.as_slice(), period) {
        return Ok(Outcome::Broken(infeasible_text(alloc, inst, &rule)?));
    }
    if limits.instance_bytes < rolled_length(inst, plan.as_slice(), period) {
        return Ok(Outcome::TooLong);
    }
    Ok(Outcome::Rolled(rolled_text(alloc, inst, plan.as_slice(), period)?))
}

/// Writes the file, if there is one to write, and says what is answered. Takes no memory.
fn tell<D: Desk>(files: &RollFiles<'_>, rolling: &Rolling, period: u32, desk: &mut D) -> u8
    requires { length rolling.now.plan ≡ length rolling.now.inst.names }
    ensures { TellsAnswer
        (answer_of (files_view files.now) rolling.now.inst rolling.now.plan period rolling.now.outcome)
        (D.shows desk.old) (D.shows desk.new) result }
{
    match &rolling.outcome {
        Outcome::Broken(text) => say(desk, 1, text.as_slice()),
        Outcome::TooLong => refuse_long(desk, 5),
        Outcome::Rolled(text) => write_out(files, rolling, text, period, desk),
    }
}

/// Writes the text of the rolled instance, and says the report.
fn write_out<D: Desk>(
    files: &RollFiles<'_>,
    rolling: &Rolling,
    report: &Text,
    period: u32,
    desk: &mut D,
) -> u8
    requires { length rolling.now.plan ≡ length rolling.now.inst.names }
    ensures { TellsAnswer (rolled_answer (files_view files.now) rolling.now.inst rolling.now.plan period report.now)
        (D.shows desk.old) (D.shows desk.new) result }
{
    let plan = rolling.plan.as_slice();
    match put_rolled(&rolling.inst, plan, period, files.out, desk) {
        Ok(()) => say(desk, 0, report.as_slice()),
        Err(_) => say_numbered(desk, 8, WRITE_WORDS, 5),
    }
}

/// Writes the text of the rolled instance as the file of this name. Takes no memory.
fn put_rolled<D: Desk>(
    inst: &Instance,
    plan: &[Option<u32>],
    period: u32,
    name: &str,
    desk: &mut D,
) -> Result<(), Failed>
    requires { length plan.now ≡ length inst.now.names }
    ensures { PutsFile (record { name = name.now; bytes = text_of inst.now plan.now period })
        (D.shows desk.old) (D.shows desk.new) result }
{
    desk.put_out(name)?;
    write_rolled(inst, plan, period, desk)?;
    desk.finish_out()
}
