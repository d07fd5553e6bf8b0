//! The command `replay`: all files are read, and the keys along the script are said.
ghost use Rattle.std.specs.Prelude.{◌≡◌, ◌≤◌, length, map, All, Some, IfOk, IfErr, OnOk};
ghost use Rattle.instance_model.specs.Limits.{standard_limits};
ghost use Rattle.instance_shape.specs.Ranges.{AreStandard};
ghost use Rattle.instance_model.specs.Plans.{AreAllowedStarts};
ghost use Rattle.plan_moves.specs.Scripts.{NamesKnown};
ghost use Rattle.plan_desk.specs.Contents.{OnlyReads, KeepsFiles};
ghost use Rattle.command_frame.specs.Sources.{source_view};
ghost use Rattle.command_frame.specs.Files.{reading};
ghost use Rattle.command_replay.specs.Replaying.{Replays, AnswersReplay, RunsReplay};
ghost use Rattle.command_frame.specs.Refusals.{CountsRefusal, IsDueAs, SaysAnswer};
ghost use Rattle.command_replay.specs.Opened.{AreRead};

use command_frame::{
    MEMORY_LINE, Opening, Refusal, Source, instance_of, opening_of, plan_of, refuse, say,
    say_numbered, script_of,
};
use instance_model::{Instance, Limits};
use move_script::{ReplayFault, Script, replay};
use plan_desk::Desk;
use plan_text::Plan;
use quantile_index::Row;
use std::alloc::Global;

/// What was read for a replay.
#[derive(Drop)]
struct Files {
    inst: Instance,
    plan: Plan,
    script: Script,
}

/// Reads the three files, and replays the script over rows of this kind.
pub fn replay_files<R: Row, D: Desk>(
    alloc: Global,
    source: &Source<'_>,
    plan: &str,
    script: &str,
    desk: &mut D,
) -> u8
    requires small { source.now.slack ≤ 1_000_000_000 }
    ensures { RunsReplay standard_limits (source_view source.now) plan.now script.now
        (D.shows desk.old) (D.shows desk.new) result }
{
    let limits = Limits::standard();
    match read_files(alloc, &limits, source, plan, script, desk) {
        Ok(files) => replay_read::<R, D>(alloc, &files, desk),
        Err(refusal) => refuse(alloc, desk, &refusal),
    }
}

/// Reads the three files.
fn read_files<D: Desk>(
    alloc: Global,
    limits: &Limits,
    source: &Source<'_>,
    plan: &str,
    script: &str,
    desk: &mut D,
) -> Result<Files, Refusal>
    requires standard { AreStandard limits.now }
    requires small { source.now.slack ≤ 1_000_000_000 }
    ensures ok { IfOk result (λ files.
        AreRead limits.now (source_view source.now) plan.now script.now (D.shows desk.old) files.inst files.plan
        files.script) }
    ensures err { IfErr result (IsDueAs (AnswersReplay limits.now (reading (D.shows desk.old) (D.shows desk.new))
        source.now.slack source.now.instance.now plan.now script.now)) }
    ensures faults { OnOk result ((D.shows desk.new).faults ≡ (D.shows desk.old).faults) }
    ensures kept { IfErr result (CountsRefusal (D.shows desk.old) (D.shows desk.new)) }
    ensures only_reads { OnlyReads (D.shows desk.old) (D.shows desk.new) }
{
    let inst = instance_of(alloc, limits, 2, source, desk)?;
    let plan = plan_of(alloc, limits, &inst, 3, plan, desk)?;
    let script = script_of(alloc, limits, &inst, 4, script, desk)?;
    Ok(Files { inst, plan, script })
}

/// Replays what was read.
fn replay_read<R: Row, D: Desk>(alloc: Global, files: &Files, desk: &mut D) -> u8
    requires each { length files.now.plan ≡ length files.now.inst.names }
    requires known { All (NamesKnown files.now.inst) files.now.script }
    ensures ends { SaysAnswer (Replays files.now.inst files.now.plan files.now.script) (D.shows desk.old)
        (D.shows desk.new) result }
    ensures keeps { KeepsFiles (D.shows desk.old) (D.shows desk.new) }
{
    match opening_of(alloc, &files.inst, &files.plan) {
        Ok(Opening::Starts(starts)) => {
            replay_from::<R, D>(alloc, &files.inst, starts.as_slice(), &files.script, desk)
        }
        Ok(Opening::Broken(report)) => say(desk, 1, report.as_slice()),
        Err(_) => say(desk, 11, MEMORY_LINE.as_bytes()),
    }
}

/// Replays a script from these starts, and says how it ended.
fn replay_from<R: Row, D: Desk>(
    alloc: Global,
    inst: &Instance,
    starts: &[u32],
    script: &Script,
    desk: &mut D,
) -> u8
    requires allowed { AreAllowedStarts inst.now starts.now }
    requires known { All (NamesKnown inst.now) script.now }
    ensures ends { SaysAnswer (Replays inst.now (map Some starts.now) script.now) (D.shows desk.old)
        (D.shows desk.new) result }
    ensures keeps { KeepsFiles (D.shows desk.old) (D.shows desk.new) }
{
    match replay::<R, D>(alloc, inst, starts, script, desk) {
        Ok(()) => say_numbered(desk, 0, "end ", script.as_slice().len() as u64),
        Err(ReplayFault::NotAllowed { n }) => {
            say_numbered(desk, 6, "refused script not allowed ", n)
        }
        Err(ReplayFault::NothingToUndo { n }) => {
            say_numbered(desk, 6, "refused script nothing to undo ", n)
        }
        Err(ReplayFault::Failed) => 8,
        Err(ReplayFault::Memory) => say(desk, 11, MEMORY_LINE.as_bytes()),
    }
}
