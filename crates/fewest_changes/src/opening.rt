//! Where a repair sets out.
ghost use Rattle.std.specs.Prelude.{ℕ, ◌<◌, length, IfOk, IfSome, IfNone, IsTrue};
ghost use Rattle.instance_model.specs.Tables.{is_allowed};
ghost use Rattle.fewest_changes.specs.Openings.{IsAllowedOld, IsOpeningStart, OpensAs};

use duration_calendar::first_allowed;
use instance_model::{Instance, Starts};
use local_search::Opening;
use plan_changes::old_start;
use std::alloc::{AllocError, Global};

/// The old start of intervention `i`, if it has one that is allowed.
fn kept_start(inst: &Instance, i: u32, old: Option<u32>) -> Option<u32>
    requires { i < length inst.now.names }
    ensures found { IfSome result (IsAllowedOld inst.now old i) }
    ensures none { IfNone result ((s : ℕ) → ¬ IsAllowedOld inst.now old i s) }
{
    let s = old?;
    if inst.allowed(i, s) { Some(s) } else { None }
}

/// The start from which intervention `i` sets out, where this was the old one, if it has an allowed start.
fn opening_start(inst: &Instance, i: u32, old: Option<u32>) -> Option<u32>
    requires { i < length inst.now.names }
    ensures found { IfSome result (IsOpeningStart inst.now old i) }
    ensures none { IfNone result ((s : ℕ) → ¬ IsTrue (is_allowed inst.now i s)) }
{
    match kept_start(inst, i, old) {
        Some(s) => Some(s),
        None => first_allowed(inst, i, 1, inst.tmax(i)),
    }
}

/// The plan of old starts where they are allowed, and of least allowed starts elsewhere.
pub fn opening_of(
    alloc: Global,
    inst: &Instance,
    old: &[Option<u32>],
) -> Result<Opening, AllocError>
    ensures { IfOk result (OpensAs inst.now old.now) }
{
    let mut starts = Vec::new(alloc);
    for i in 0..inst.interventions() {
        match opening_start(inst, i, old_start(old, i as usize)) {
            Some(start) => starts.push(start)?,
            None => return Ok(Opening::Without { i }),
        }
    }
    Ok(Opening::From(Starts::from_vec(starts)))
}
