//! A script is read from its text.
ghost use Rattle.std.specs.Prelude.{◌≡◌, ◌≢◌, [], List, Ok, Err, IfOk, IfErr, All, Contains, slice_index_or};
ghost use Rattle.plan_moves.specs.Scripts.{NamesKnown};
ghost use Rattle.plan_moves.specs.declared.script_line.ScriptLine.{ScriptLine};
ghost use Rattle.move_script.specs.Spelling.{IsPlace, IsScript, Spells};
ghost use Rattle.move_script.specs.FirstFault.{HasScriptFault, Answers};
ghost use Rattle.move_script.specs.Steps.{Refuses};

use crate::line::{move_of, swap_of};
use crate::{Script, ScriptFault};
use instance_model::Instance;
use plan_moves::ScriptLine;
use std::alloc::Global;
use text_lines::{find_name, split_line};

/// Reads the script that a text spells, in time linear in the text apart from the look-ups of names.
///
/// A start of 0, or one past the last start of its intervention, is no fault of the text.
pub fn read_script(alloc: Global, inst: &Instance, bytes: &[u8]) -> Result<Script, ScriptFault>
    // What is read is spelled so, and what is spelled is read.
    ensures read { IfOk result (λ script. IsScript inst.now.names bytes.now script) }
    ensures complete { (script : List ScriptLine) → IsScript inst.now.names bytes.now script
        → Answers result (Ok script) }

    // Each fault is the text's first, and a text with a fault is refused by it.
    ensures fault { IfErr result (λ fault. fault ≢ ScriptFault.Memory → HasScriptFault inst.now.names bytes.now fault) }
    ensures refused { (fault : ScriptFault) → HasScriptFault inst.now.names bytes.now fault
        → Answers result (Err fault) }

    // Each name that is read is an intervention's.
    ensures known { IfOk result (All (NamesKnown inst.now)) }
{
    let lines = read_lines(alloc, inst, bytes)?;
    Ok(Script::from_vec(lines))
}

fn read_lines(alloc: Global, inst: &Instance, text: &[u8]) -> Result<Vec<ScriptLine>, ScriptFault>
    ensures ok { IfOk result (λ lines. IsScript inst.now.names text.now lines.items) }
    ensures err { IfErr result (λ fault. fault ≢ ScriptFault.Memory → HasScriptFault inst.now.names text.now fault) }
{
    let mut lines = Vec::new(alloc);
    let mut rest = text;
    let mut n = 0;
    while !rest.is_empty() {
        let (line, after) = split_line(rest);
        n += 1;
        let read = read_line(inst, line, n)?;
        lines.push(read)?;
        rest = after;
    }
    Ok(lines)
}

/// Reads line `n`.
fn read_line(inst: &Instance, line: &[u8], n: u64) -> Result<ScriptLine, ScriptFault>
    ensures ok { IfOk result (Spells inst.now.names line.now) }
    ensures err { IfErr result (Refuses inst.now.names line.now n) }
{
    if line == b"undo".as_slice() {
        return Ok(ScriptLine::Undo);
    }
    if let Some((name, s)) = move_of(line) {
        let i = number_of(inst, name, n)?;
        return Ok(ScriptLine::Move { i, s });
    }
    let Some((name, other)) = swap_of(line) else {
        return Err(ScriptFault::BadLine { n });
    };
    let i = number_of(inst, name, n)?;
    let j = number_of(inst, other, n)?;
    Ok(ScriptLine::Swap { i, j })
}

/// The number of the intervention that line `n` names.
fn number_of(inst: &Instance, name: &[u8], n: u64) -> Result<u32, ScriptFault>
    ensures place { IfOk result (IsPlace inst.now.names) }
    ensures name { IfOk result (λ i. slice_index_or inst.now.names i [] ≡ name.now) }
    ensures err { IfErr result (λ fault. (fault ≡ ScriptFault.UnknownName n) × (Contains inst.now.names name.now → ⊥)) }
{
    inst.fits();
    find_name(inst, name).ok_or(ScriptFault::UnknownName { n })
}
