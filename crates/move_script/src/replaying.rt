//! A script is replayed from an opening plan.
ghost use Rattle.std.specs.Prelude.{◌≡◌, ◌≢◌, ◌+◌, ◌<◌, ◌≤◌, ◌&&◌, ℕ, [], ◌∷◌, length, slice_index, All, Some, None};
ghost use Rattle.std.specs.Prelude.{IfOk, IfErr, Err, OnOk, OnErr, IsErrOf};
ghost use Rattle.plan_desk.specs.Faults.{SayFails};
ghost use Rattle.instance_model.specs.Tables.{is_allowed};
ghost use Rattle.instance_model.specs.Plans.{AreAllowedStarts};
ghost use Rattle.plan_moves.specs.KeptPlans.{present};
ghost use Rattle.plan_moves.specs.Scripts.{Succeeds, NamesKnown, after_line};
ghost use Rattle.move_script.specs.LineFaults.{line_fault};
ghost use Rattle.move_script.specs.Replays.{replay_text, FailsByStart, FailsByUndo, SaysKeys};

use crate::key_line::say_key;
use crate::{ReplayFault, Script};
use fixed_num::Steps;
use instance_model::Instance;
use plan_desk::Desk;
use plan_moves::{Kept, ScriptLine};
use quantile_index::Row;
use std::alloc::{AllocError, Global};
use std::marker::Brand;
use std::sync::ledger::{Blank, Ledger};

/// Says the key of the opening and that after each line of the script, up to the first line that fails. Takes all its
/// memory before it says anything.
pub fn replay<R: Row, D: Desk>(
    alloc: Global,
    inst: &Instance,
    starts: &[u32],
    script: &Script,
    desk: &mut D,
) -> Result<(), ReplayFault>
    requires allowed { AreAllowedStarts inst.now starts.now }
    requires known { All (NamesKnown inst.now) script.now }
    ensures ok { OnOk result (Succeeds inst.now starts.now script.now) }
    ensures not_allowed { (n : ℕ) → result ≡ Err (ReplayFault.NotAllowed n)
        → FailsByStart inst.now starts.now script.now n }
    ensures nothing_to_undo { (n : ℕ) → result ≡ Err (ReplayFault.NothingToUndo n)
        → FailsByUndo inst.now starts.now script.now n }
    ensures said { SaysKeys result (replay_text inst.now starts.now script.now) (D.shows desk.old) (D.shows desk.new) }
    ensures failed { IsErrOf result ReplayFault.Failed → SayFails (D.shows desk.old) (D.shows desk.new) }
    ensures same { (result ≢ Err ReplayFault.Failed) → (D.shows desk.new).faults ≡ (D.shows desk.old).faults }
{
    let lines = script.as_slice();
    let mut kept = kept_for::<R>(alloc, inst, starts, lines.len())?;
    replay_lines::<R, Brand, D>(&mut kept, lines, Blank::new(1), desk)
}

/// The opening plan, with room for one more plan a line.
fn kept_for<'a, R: Row>(
    alloc: Global,
    inst: &'a Instance,
    starts: &[u32],
    lines: usize,
) -> Result<Kept<'a, R>, AllocError>
    requires { AreAllowedStarts inst.now starts.now }
    ensures { IfOk result (λ kept. kept ≡ record { instance = inst.now; plans = starts.now ∷ []; spare = lines }) }
{
    let mut kept = Kept::make(alloc, inst, starts)?;
    kept.reserve(lines)?;
    Ok(kept)
}

/// Replays the lines from the one plan that is kept. Steps are counted on a counter of its own.
fn replay_lines<R: Row, L: Ledger, D: Desk>(
    kept: &mut Kept<'_, R>,
    script: &[ScriptLine],
    blank: Blank,
    desk: &mut D,
) -> Result<(), ReplayFault>
    requires name { blank.name ≡ L.name }
    requires parts { blank.parts ≡ L.parts }
    requires one { blank.parts ≡ 1 }
    requires alone { kept.old.plans ≡ present kept.old.plans ∷ [] }
    requires room { length script.now ≤ kept.old.spare }
    requires known { All (NamesKnown kept.old.instance) script.now }
    ensures ok { OnOk result (Succeeds kept.old.instance (present kept.old.plans) script.now) }
    ensures not_allowed { (n : ℕ) → result ≡ Err (ReplayFault.NotAllowed n)
        → FailsByStart kept.old.instance (present kept.old.plans) script.now n }
    ensures nothing_to_undo { (n : ℕ) → result ≡ Err (ReplayFault.NothingToUndo n)
        → FailsByUndo kept.old.instance (present kept.old.plans) script.now n }
    ensures said { SaysKeys result (replay_text kept.old.instance (present kept.old.plans) script.now)
        (D.shows desk.old) (D.shows desk.new) }
    ensures failed { IsErrOf result ReplayFault.Failed → SayFails (D.shows desk.old) (D.shows desk.new) }
    ensures same { (result ≢ Err ReplayFault.Failed) → (D.shows desk.new).faults ≡ (D.shows desk.old).faults }
{
    let mut steps = Steps::<L>::zero(blank);
    say_key(desk, 0, kept.key())?;
    for (i, line) in script.iter().enumerate() {
        let n = i as u64 + 1;
        follow(kept, *line, n, &mut steps)?;
        let key = kept.key();
        say_key(desk, n, key)?;
    }
    Ok(())
}

/// Makes the change of line `n`, or tells why it can't be made.
fn follow<R: Row, L: Ledger>(
    kept: &mut Kept<'_, R>,
    line: ScriptLine,
    n: u64,
    steps: &mut Steps<L>,
) -> Result<(), ReplayFault>
    requires known { NamesKnown kept.old.instance line }
    requires spare { 0 < kept.old.spare }
    ensures instance { kept.new.instance ≡ kept.old.instance }
    ensures ok { OnOk result (after_line kept.old.instance kept.old.plans line ≡ Some kept.new.plans) }
    ensures spare { kept.old.spare ≤ kept.new.spare + 1 }
    ensures err { OnErr result (after_line kept.old.instance kept.old.plans line ≡ None) }
    ensures fault { IfErr result (λ fault. fault ≡ line_fault line n) }
{
    match line {
        ScriptLine::Move { i, s } => {
            if !kept.instance().allowed(i, s) {
                return Err(ReplayFault::NotAllowed { n });
            }
            kept.move_start(i, s, steps);
            Ok(())
        }
        ScriptLine::Swap { i, j } => {
            if !may_swap(kept, i, j) {
                return Err(ReplayFault::NotAllowed { n });
            }
            kept.swap(i, j, steps);
            Ok(())
        }
        ScriptLine::Undo => {
            if kept.undo(steps) {
                Ok(())
            } else {
                Err(ReplayFault::NothingToUndo { n })
            }
        }
    }
}

/// Whether each of two interventions may start where the other does.
fn may_swap<R: Row>(kept: &Kept<'_, R>, i: u32, j: u32) -> bool
    requires first { i < length kept.now.instance.names }
    requires second { j < length kept.now.instance.names }
    ensures { result ≡ is_allowed kept.now.instance i (slice_index (present kept.now.plans) j)
        && is_allowed kept.now.instance j (slice_index (present kept.now.plans) i) }
{
    let inst = kept.instance();
    inst.allowed(i, kept.start_of(j)) && inst.allowed(j, kept.start_of(i))
}
