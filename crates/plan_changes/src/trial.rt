//! A feasible plan of which single starts go back to the old ones.
ghost use Rattle.std.specs.Prelude.{◌≡◌, ◌<◌, length, map, Some, slice_set};
ghost use Rattle.std.specs.Bool.{OnTrue, OnFalse};
ghost use Rattle.instance_model.specs.Rules.{IsFeasible};
ghost use Rattle.plan_changes.specs.Changes.{changes_of};
ghost use Rattle.plan_changes.specs.Returning.{CannotGoBack, NoneCanGoBack, IsTrial, IsGivenBack, GoesBack};

use crate::counting::old_start;
use instance_model::Instance;
use plan_score::broken_rule;

/// The starts of a feasible plan, and the same as a plan.
#[derive(Drop)]
pub(crate) struct Trial {
    pub starts: Vec<u32>,
    pub plan: Vec<Option<u32>>,
}

/// Sets the start of intervention `i` to `s` where the plan stays feasible, and answers whether it does.
fn put_back(inst: &Instance, i: usize, s: u32, trial: &mut Trial) -> bool
    requires trial { IsTrial inst.now trial.old }
    requires number { i < length inst.now.names }
    ensures trial { IsTrial inst.now trial.new }
    ensures back { OnTrue result (trial.new.starts.items ≡ slice_set trial.old.starts.items i s) }
    ensures stays { OnFalse result (trial.new.starts.items ≡ trial.old.starts.items) }
    ensures cannot { OnFalse result (¬ IsFeasible inst.now (map Some (slice_set trial.old.starts.items i s))) }
{
    let start = trial.starts[i];
    trial.plan[i] = Some(s);
    if broken_rule(inst, trial.plan.as_slice()).is_some() {
        trial.plan[i] = Some(start);
        return false;
    }
    trial.starts[i] = s;
    true
}

/// Puts the start of intervention `i` back to the old one where it is another one now and the plan stays feasible, and
/// answers whether it does.
fn go_back(inst: &Instance, old: &[Option<u32>], i: usize, trial: &mut Trial) -> bool
    requires trial { IsTrial inst.now trial.old }
    requires number { i < length inst.now.names }
    ensures trial { IsTrial inst.now trial.new }
    ensures back { OnTrue result (GoesBack old.now trial.old.starts.items trial.new.starts.items i) }
    ensures stays { OnFalse result (trial.new.starts.items ≡ trial.old.starts.items) }
    ensures cannot { OnFalse result (CannotGoBack inst.now old.now trial.old.starts.items i) }
{
    let Some(s) = old_start(old, i) else {
        return false;
    };
    if trial.starts[i] == s {
        return false;
    }
    put_back(inst, i, s, trial)
}

/// Tries each intervention once, and answers whether any start went back.
pub(crate) fn round(inst: &Instance, old: &[Option<u32>], trial: &mut Trial) -> bool
    requires { IsTrial inst.now trial.old }
    ensures trial { IsTrial inst.now trial.new }
    ensures back { IsGivenBack old.now trial.old.starts.items trial.new.starts.items }
    ensures fewer { OnTrue result
        (changes_of old.now trial.new.starts.items < changes_of old.now trial.old.starts.items) }
    ensures none { OnFalse result (NoneCanGoBack inst.now old.now trial.new.starts.items) }
{
    let mut any = false;
    for i in 0..trial.starts.len() {
        if go_back(inst, old, i, trial) {
            any = true;
        }
    }
    any
}
