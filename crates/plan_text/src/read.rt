//! A plan is read from its text.
ghost use Rattle.std.specs.Prelude.{◌≡◌, ◌≢◌, ℕ, List, Option, None, Ok, Err, length, vec_len, replicate, IfOk, IfErr};
ghost use Rattle.std.specs.Prelude.{OnOk};
ghost use Rattle.plan_text.specs.Spelling.{IsPlan};
ghost use Rattle.plan_text.specs.FirstFault.{HasPlanFault, Answers};
ghost use Rattle.plan_text.specs.Steps.{Enters, Refuses};

use crate::line::{entry_of, is_blank, without_return};
use crate::{Plan, PlanFault};
use instance_model::Instance;
use std::alloc::Global;
use text_lines::{find_name, split_line};

/// Reads the plan that a text spells, in time linear in the text.
///
/// A start of 0, or one past the last start of its intervention, is no fault of the text.
pub fn read_plan(alloc: Global, inst: &Instance, bytes: &[u8]) -> Result<Plan, PlanFault>
    // What is read is spelled so, and what is spelled is read.
    ensures read { IfOk result (λ plan. IsPlan inst.now.names bytes.now plan) }
    ensures complete { (plan : List (Option ℕ)) → IsPlan inst.now.names bytes.now plan → Answers result (Ok plan) }

    // Each fault is the text's first, and a text with a fault is refused by it.
    ensures fault { IfErr result (λ fault. fault ≢ PlanFault.Memory → HasPlanFault inst.now.names bytes.now fault) }
    ensures refused { (fault : PlanFault) → HasPlanFault inst.now.names bytes.now fault → Answers result (Err fault) }
{
    let mut starts = vec![in alloc; None; inst.interventions() as usize]?;
    read_lines(inst, bytes, &mut starts)?;
    Ok(Plan::from_vec(starts))
}

/// Reads the starts of all lines into a plan that has none yet.
fn read_lines(inst: &Instance, text: &[u8], starts: &mut Vec<Option<u32>>) -> Result<(), PlanFault>
    requires { starts.old.items ≡ replicate (length inst.now.names) None }
    ensures ok { OnOk result (IsPlan inst.now.names text.now starts.new.items) }
    ensures err { IfErr result (HasPlanFault inst.now.names text.now) }
{
    inst.fits();
    let mut rest = text;
    let mut n = 0;
    while !rest.is_empty() {
        let (line, after) = split_line(rest);
        n += 1;
        read_line(inst, without_return(line), n, starts)?;
        rest = after;
    }
    Ok(())
}

/// Reads the start of line `n`, where it gives one.
fn read_line(
    inst: &Instance,
    line: &[u8],
    n: u64,
    starts: &mut Vec<Option<u32>>,
) -> Result<(), PlanFault>
    requires { vec_len starts.old ≡ length inst.now.names }
    ensures ok { OnOk result (Enters inst.now.names line.now starts.old.items starts.new.items) }
    ensures err { IfErr result (Refuses inst.now.names line.now starts.old.items n) }
{
    if is_blank(line) {
        return Ok(());
    }
    let Some((name, start)) = entry_of(line) else {
        return Err(PlanFault::BadLine { n });
    };
    let Some(i) = find_name(inst, name) else {
        return Err(PlanFault::UnknownName { n });
    };
    if starts[i as usize].is_some() {
        return Err(PlanFault::Twice { n });
    }
    starts[i as usize] = Some(start);
    Ok(())
}
