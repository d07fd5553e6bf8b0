//! The goal that a plan is repaired by: its value is 10^18 for each change.
ghost use Rattle.std.specs.Prelude.{◌≡◌, IfOk};

use crate::counting::{changes, is_changed, old_start};
use instance_model::Instance;
use lagrange_bound::{Goal, Prices};
use std::alloc::{AllocError, Global};
use std::marker::Model;

/// What one change is worth.
const CHANGE: i128 = 1_000_000_000_000_000_000;

/// The goal of few changes against old starts: contracts see these.
#[derive(Drop)]
pub struct ChangeGoal {
    old: Vec<Option<u32>>,
}

impl Model for ChangeGoal {
    ghost use Rattle.std.specs.Prelude.{ℕ, List, Option};

    ghost Value = { List (Option ℕ) };

    ghost view = { λ goal. goal.old.items };
}

impl ChangeGoal {
    /// The goal of few changes against the starts of a plan. An intervention past the end of the list has no old start.
    pub fn make(alloc: Global, plan: &[Option<u32>]) -> Result<ChangeGoal, AllocError>
        ensures { IfOk result (λ goal. goal ≡ plan.now) }
    {
        Ok(ChangeGoal {
            old: Vec::from_slice(alloc, plan)?,
        })
    }
}

impl Goal for ChangeGoal {
    ghost use Rattle.plan_changes.specs.Changes.{change_base, change_value};
    ghost use Rattle.plan_changes.specs.GoalLemmas.{change_law, change_bases_small, change_values_small};

    ghost base_gives = { change_base };

    ghost value_gives = { change_value };

    ghost law = { change_law };

    ghost small_bases = { change_bases_small };

    ghost small_values = { change_values_small };

    fn base(&self, _inst: &Instance, _prices: &Prices, i: u32, s: u32) -> i128 {
        if is_changed(old_start(self.old.as_slice(), i as usize), s) {
            CHANGE
        } else {
            0
        }
    }

    fn value(&self, _alloc: Global, inst: &Instance, starts: &[u32]) -> Result<i128, AllocError> {
        inst.fits();
        Ok(CHANGE * i128::from(changes(self.old.as_slice(), starts)))
    }
}
