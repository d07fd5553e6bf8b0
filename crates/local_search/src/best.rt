//! The best start of one intervention, all others staying.
ghost use Rattle.std.specs.Prelude.{◌≡◌, ◌<◌, length, IfSome, IfNone, IsTrue};
ghost use Rattle.instance_model.specs.Tables.{is_allowed};
ghost use Rattle.instance_model.specs.Keys.{KeyBelow};
ghost use Rattle.plan_moves.specs.declared.change.Change.{Change};
ghost use Rattle.plan_moves.specs.KeptPlans.{present_key};
ghost use Rattle.plan_moves.specs.Changing.{changed_key};
ghost use Rattle.local_search.specs.Progress.{NoStartLowers};

use fixed_num::Steps;
use instance_model::Key;
use plan_moves::{Change, Kept};
use quantile_index::Row;
use std::sync::ledger::Ledger;

/// The key with intervention `i` at `s`, where that is allowed and the key is below `limit`.
fn key_at<R: Row, L: Ledger>(
    kept: &mut Kept<'_, R>,
    i: u32,
    s: u32,
    limit: Key,
    steps: &mut Steps<L>,
) -> Option<Key>
    requires { i < length kept.old.instance.names }
    ensures same { kept.new ≡ kept.old }
    ensures allowed { IfSome result (λ _. IsTrue (is_allowed kept.old.instance i s)) }
    ensures value { IfSome result (λ key. key ≡ changed_key kept.old (Change.Move i s)) }
    ensures below { IfSome result (λ key. KeyBelow key limit) }
    ensures none { IfNone result
        (IsTrue (is_allowed kept.old.instance i s) → ¬ KeyBelow (changed_key kept.old (Change.Move i s)) limit) }
{
    if !kept.instance().allowed(i, s) {
        return None;
    }
    kept.key_below(Change::Move { i, s }, limit, steps)
}

/// An allowed start of intervention `i` under which the key is least, where that is below the present key.
pub(crate) fn best_start<R: Row, L: Ledger>(
    kept: &mut Kept<'_, R>,
    i: u32,
    steps: &mut Steps<L>,
) -> Option<u32>
    requires { i < length kept.old.instance.names }
    ensures same { kept.new ≡ kept.old }
    ensures allowed { IfSome result (λ s. IsTrue (is_allowed kept.old.instance i s)) }
    ensures lower { IfSome result (λ s.
        KeyBelow (changed_key kept.old (Change.Move i s)) (present_key kept.old.instance kept.old.plans)) }
    ensures none { IfNone result (NoStartLowers kept.old i) }
{
    let inst = kept.instance();
    inst.fits();
    let tmax = inst.tmax(i);
    let mut least = kept.key();
    let mut best = None;
    for s in 1..tmax + 1 {
        if let Some(key) = key_at(kept, i, s, least, steps) {
            least = key;
            best = Some(s);
        }
    }
    best
}
