//! The loads of a period and their limits.
ghost use Rattle.std.specs.Prelude.{◌≡◌, ◌<◌, ◌≤◌, length, IfOk};
ghost use Rattle.instance_model.specs.Plans.{RunsAreAllowed};
ghost use Rattle.plan_table.specs.Reports.{load_state_of, load_line_of, load_lines_of};

use crate::lists::LoadLines;
use crate::report::{LoadLine, LoadState};
use instance_model::Instance;
use plan_score::load_of_plan;
use std::alloc::{AllocError, Global};

/// How a load stands to its limits, where something runs or not.
fn state_of(load: i128, lower: i128, upper: i128) -> LoadState
    ensures { result ≡ load_state_of load lower upper }
{
    if load > upper {
        LoadState::Over
    } else if load < lower {
        LoadState::Under
    } else {
        LoadState::Fits
    }
}

/// The load of resource `c` in period `t` and its limits.
fn load_line(inst: &Instance, plan: &[Option<u32>], t: u32, c: u32) -> LoadLine
    requires each { length plan.now ≡ length inst.now.names }
    requires allowed { RunsAreAllowed inst.now plan.now }
    requires from { 1 ≤ t }
    requires to { t ≤ inst.now.periods }
    requires resource { c < length inst.now.resource_names }
    ensures { result ≡ load_line_of inst.now plan.now t c }
{
    let load = load_of_plan(inst, plan, c, t);
    let lower = inst.lower(c, t);
    let upper = inst.upper(c, t);
    LoadLine {
        c,
        load,
        lower,
        upper,
        state: state_of(load, lower, upper),
    }
}

/// The loads of all resources in period `t`.
pub(crate) fn load_lines(
    alloc: Global,
    inst: &Instance,
    plan: &[Option<u32>],
    t: u32,
) -> Result<LoadLines, AllocError>
    requires each { length plan.now ≡ length inst.now.names }
    requires allowed { RunsAreAllowed inst.now plan.now }
    requires from { 1 ≤ t }
    requires to { t ≤ inst.now.periods }
    ensures { IfOk result (λ lines. lines ≡ load_lines_of inst.now plan.now t) }
{
    let mut lines = Vec::new(alloc);
    for c in 0..inst.resources() {
        lines.push(load_line(inst, plan, t, c))?;
    }
    Ok(LoadLines::from_vec(lines))
}
