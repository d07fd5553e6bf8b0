//! The exclusions that are broken in a period.
ghost use Rattle.std.specs.Prelude.{◌≡◌, ◌<◌, ◌≤◌, length, IfOk, map, Some};
ghost use Rattle.instance_model.specs.Plans.{AreAllowedStarts};
ghost use Rattle.instance_model.specs.Rules.{clashes as clashes_of};
ghost use Rattle.plan_table.specs.Reports.{clashes_in};

use crate::lists::ClashLines;
use crate::runs::is_running;
use instance_model::Instance;
use std::alloc::{AllocError, Global};

/// Whether exclusion `e` is broken in period `t`.
fn is_broken(inst: &Instance, starts: &[u32], e: u32, t: u32) -> bool
    requires allowed { AreAllowedStarts inst.now starts.now }
    requires from { 1 ≤ t }
    requires to { t ≤ inst.now.periods }
    requires exclusion { e < length inst.now.exclusion_names }
    ensures { result ≡ clashes_of inst.now (map Some starts.now) e t }
{
    let exclusion = inst.exclusion(e);
    inst.in_season(exclusion.season, t)
        && is_running(inst, starts, exclusion.first, t)
        && is_running(inst, starts, exclusion.second, t)
}

/// The exclusions that are broken in period `t`.
pub(crate) fn clash_lines(
    alloc: Global,
    inst: &Instance,
    starts: &[u32],
    t: u32,
) -> Result<ClashLines, AllocError>
    requires allowed { AreAllowedStarts inst.now starts.now }
    requires from { 1 ≤ t }
    requires to { t ≤ inst.now.periods }
    ensures { IfOk result (λ lines. lines ≡ clashes_in inst.now (map Some starts.now) t) }
{
    let mut lines = Vec::new(alloc);
    for e in 0..inst.exclusions() {
        if is_broken(inst, starts, e, t) {
            lines.push(e)?;
        }
    }
    Ok(ClashLines::from_vec(lines))
}
