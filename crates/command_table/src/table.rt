//! The command `table`: both files are read, and the periods of the plan are reported.
ghost use Rattle.std.specs.Prelude.{◌≡◌, ◌≤◌, ℕ, length, map, All, Some, IfOk, IfErr, OnOk};
ghost use Rattle.std.specs.List.{flat_map};
ghost use Rattle.instance_model.specs.Limits.{standard_limits};
ghost use Rattle.instance_shape.specs.Ranges.{AreStandard};
ghost use Rattle.instance_model.specs.Plans.{AreAllowedStarts};
ghost use Rattle.plan_desk.specs.Contents.{OnlyReads, KeepsFiles};
ghost use Rattle.plan_desk.specs.Written.{SaysText};
ghost use Rattle.plan_table.specs.Texts.{report_text, NamesWithin};
ghost use Rattle.command_frame.specs.Sources.{source_view};
ghost use Rattle.command_frame.specs.Files.{reading};
ghost use Rattle.command_frame.specs.Refusals.{CountsRefusal, IsDueAs, SaysAnswer, SaysOrFails};
ghost use Rattle.command_table.specs.Tabling.{reports_of, table_text, Tabulates, AnswersTable, RunsTable};
ghost use Rattle.command_table.specs.Read.{AreRead};

use command_frame::{
    MEMORY_LINE, Opening, Refusal, Source, instance_of, opening_of, plan_of, refuse, say, say_line,
};
use instance_model::{Instance, Limits};
use plan_desk::{Desk, Failed};
use plan_table::{PeriodReport, one_report, period_report, say_report};
use plan_text::Plan;
use std::alloc::{AllocError, Global};

/// What was read for a table.
#[derive(Drop)]
struct Files {
    inst: Instance,
    plan: Plan,
}

/// Reads both files, and says the reports of the periods from `from` to `to`, or to the horizon where that comes
/// before.
pub fn table_files<D: Desk>(
    alloc: Global,
    source: &Source<'_>,
    plan: &str,
    from: u32,
    to: u32,
    desk: &mut D,
) -> u8
    requires small { source.now.slack ≤ 1_000_000_000 }
    requires first { 1 ≤ from }
    ensures { RunsTable standard_limits (source_view source.now) plan.now from to (D.shows desk.old)
        (D.shows desk.new) result }
{
    let limits = Limits::standard();
    match read_files(alloc, &limits, source, plan, desk) {
        Ok(files) => table_read(alloc, &files, from, to, desk),
        Err(refusal) => refuse(alloc, desk, &refusal),
    }
}

/// Reads both files. The answer that is due where one is refused is the same for all periods.
fn read_files<D: Desk>(
    alloc: Global,
    limits: &Limits,
    source: &Source<'_>,
    plan: &str,
    desk: &mut D,
) -> Result<Files, Refusal>
    requires standard { AreStandard limits.now }
    requires small { source.now.slack ≤ 1_000_000_000 }
    ensures ok { IfOk result (λ files.
        AreRead limits.now (source_view source.now) plan.now (D.shows desk.old) files.inst files.plan) }
    ensures err { IfErr result (λ refusal. (from to : ℕ)
        → IsDueAs (AnswersTable limits.now (reading (D.shows desk.old) (D.shows desk.new))
        source.now.slack source.now.instance.now plan.now from to) refusal) }
    ensures faults { OnOk result ((D.shows desk.new).faults ≡ (D.shows desk.old).faults) }
    ensures kept { IfErr result (CountsRefusal (D.shows desk.old) (D.shows desk.new)) }
    ensures only_reads { OnlyReads (D.shows desk.old) (D.shows desk.new) }
{
    let inst = instance_of(alloc, limits, 2, source, desk)?;
    let plan = plan_of(alloc, limits, &inst, 3, plan, desk)?;
    Ok(Files { inst, plan })
}

/// Reports what was read.
fn table_read<D: Desk>(alloc: Global, files: &Files, from: u32, to: u32, desk: &mut D) -> u8
    requires each { length files.now.plan ≡ length files.now.inst.names }
    requires first { 1 ≤ from }
    ensures ends { SaysAnswer (Tabulates files.now.inst files.now.plan from to) (D.shows desk.old)
        (D.shows desk.new) result }
    ensures keeps { KeepsFiles (D.shows desk.old) (D.shows desk.new) }
{
    match opening_of(alloc, &files.inst, &files.plan) {
        Ok(Opening::Starts(starts)) => {
            table_from(alloc, &files.inst, starts.as_slice(), from, to, desk)
        }
        Ok(Opening::Broken(report)) => say(desk, 1, report.as_slice()),
        Err(_) => say(desk, 11, MEMORY_LINE.as_bytes()),
    }
}

/// Makes the reports of these starts, and says them.
fn table_from<D: Desk>(
    alloc: Global,
    inst: &Instance,
    starts: &[u32],
    from: u32,
    to: u32,
    desk: &mut D,
) -> u8
    requires allowed { AreAllowedStarts inst.now starts.now }
    requires first { 1 ≤ from }
    ensures ends { SaysAnswer (Tabulates inst.now (map Some starts.now) from to) (D.shows desk.old)
        (D.shows desk.new) result }
    ensures keeps { KeepsFiles (D.shows desk.old) (D.shows desk.new) }
{
    match reports_of(alloc, inst, starts, from, to) {
        Ok(reports) => say_table(inst, reports.as_slice(), desk),
        Err(_) => say(desk, 11, MEMORY_LINE.as_bytes()),
    }
}

/// The reports of the periods from `from` to `to`, or to the horizon where that comes before.
fn reports_of(
    alloc: Global,
    inst: &Instance,
    starts: &[u32],
    from: u32,
    to: u32,
) -> Result<Vec<PeriodReport>, AllocError>
    requires allowed { AreAllowedStarts inst.now starts.now }
    requires first { 1 ≤ from }
    ensures reports { IfOk result (λ reports. reports.items ≡ reports_of inst.now starts.now from to) }
    ensures names { IfOk result (λ reports. All (NamesWithin inst.now) reports.items) }
{
    one_report(inst);
    let last = to.min(inst.periods());
    let mut reports = Vec::new(alloc);
    for t in from..last + 1 {
        reports.push(period_report(alloc, inst, starts, t)?)?;
    }
    Ok(reports)
}

/// Says a table.
fn say_table<D: Desk>(inst: &Instance, reports: &[PeriodReport], desk: &mut D) -> u8
    requires { All (NamesWithin inst.now) reports.now }
    ensures ends { SaysOrFails 0 (table_text inst.now reports.now) (D.shows desk.old) (D.shows desk.new) result }
    ensures keeps { KeepsFiles (D.shows desk.old) (D.shows desk.new) }
{
    match say_lines(inst, reports, desk) {
        Ok(()) => 0,
        Err(_) => 8,
    }
}

/// Says the reports, their number, and how many numbers of the instance were changed by rounding.
fn say_lines<D: Desk>(inst: &Instance, reports: &[PeriodReport], desk: &mut D) -> Result<(), Failed>
    requires { All (NamesWithin inst.now) reports.now }
    ensures { SaysText (table_text inst.now reports.now) (D.shows desk.old) (D.shows desk.new) result }
{
    say_reports(inst, reports, desk)?;
    say_line(desk, "end ", reports.len() as u64)?;
    say_line(desk, "rounded ", inst.rounded())
}

fn say_reports<D: Desk>(
    inst: &Instance,
    reports: &[PeriodReport],
    desk: &mut D,
) -> Result<(), Failed>
    requires { All (NamesWithin inst.now) reports.now }
    ensures { SaysText (flat_map (report_text inst.now) reports.now) (D.shows desk.old) (D.shows desk.new) result }
{
    for report in reports {
        say_report(inst, report, desk)?;
    }
    Ok(())
}
