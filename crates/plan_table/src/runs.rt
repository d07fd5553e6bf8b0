//! The interventions in progress in a period.
ghost use Rattle.std.specs.Prelude.{◌≡◌, ◌*◌, ◌<◌, ◌≤◌, ◌^◌, length, IfOk, IsTrue, unsigned_abs, slice_index, map};
ghost use Rattle.std.specs.Prelude.{Some};
ghost use Rattle.fixed_num.specs.Sums.{total};
ghost use Rattle.instance_model.specs.Plans.{AreAllowedStarts, is_running};
ghost use Rattle.instance_model.specs.RiskNumbers.{numbers_of};
ghost use Rattle.instance_model.specs.Tables.{in_run, is_allowed};
ghost use Rattle.plan_table.specs.Reports.{run_line_of, run_lines_of};

use crate::lists::RunLines;
use crate::report::RunLine;
use fixed_num::{Steps, ceil_div, floor_div};
use instance_model::{Instance, RiskNumbers};
use plan_score::is_in_progress;
use std::alloc::{AllocError, Global};
use std::sync::ledger::Ledger;

/// Whether intervention `i` is in progress in period `t`.
pub(crate) fn is_running(inst: &Instance, starts: &[u32], i: u32, t: u32) -> bool
    requires allowed { AreAllowedStarts inst.now starts.now }
    requires number { i < length inst.now.names }
    ensures value { result ≡ is_running inst.now (map Some starts.now) i t }
    ensures run { result ≡ in_run inst.now i (slice_index starts.now i) t }
{
    is_in_progress(inst, i, starts[i as usize], t)
}

/// The sum of risks.
fn total_risk(risks: RiskNumbers<'_>) -> i128
    requires { length (numbers_of risks) ≤ 1024 }
    ensures value { result ≡ total (numbers_of risks.entry) }
    ensures small { unsigned_abs result ≤ 1024 * 10 ^ 20 }
{
    let mut sum: i128 = 0;
    for k in 0..risks.len() {
        sum += risks.at(k).count();
    }
    sum
}

/// Intervention `i`, which is in progress in period `t` from start `s` on.
fn run_line<L: Ledger>(inst: &Instance, t: u32, i: u32, s: u32, steps: &mut Steps<L>) -> RunLine
    requires from { 1 ≤ t }
    requires to { t ≤ inst.now.periods }
    requires number { i < length inst.now.names }
    requires allowed { IsTrue (is_allowed inst.now i s) }
    requires running { IsTrue (in_run inst.now i s t) }
    ensures { result ≡ run_line_of inst.now t i s }
{
    let n = inst.scenarios(t) as i128;
    let risk = total_risk(inst.risks(i, s, t, steps));
    RunLine {
        i,
        start: s,
        day: t - s + 1,
        duration: inst.delta(i, s),
        low: floor_div(risk, n),
        high: ceil_div(risk, n),
    }
}

/// The interventions in progress in period `t`.
pub(crate) fn run_lines<L: Ledger>(
    alloc: Global,
    inst: &Instance,
    starts: &[u32],
    t: u32,
    steps: &mut Steps<L>,
) -> Result<RunLines, AllocError>
    requires allowed { AreAllowedStarts inst.now starts.now }
    requires from { 1 ≤ t }
    requires to { t ≤ inst.now.periods }
    ensures { IfOk result (λ lines. lines ≡ run_lines_of inst.now starts.now t) }
{
    let mut lines = Vec::new(alloc);
    for i in 0..inst.interventions() {
        if is_running(inst, starts, i, t) {
            lines.push(run_line(inst, t, i, starts[i as usize], steps))?;
        }
    }
    Ok(RunLines::from_vec(lines))
}
