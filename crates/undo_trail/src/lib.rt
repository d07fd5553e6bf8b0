//! A list of steps, each of which says how to undo a change, with room reserved for further ones.
#![tactic(auto)]

ghost use Rattle.std.specs.Prelude.{◌≡◌, ◌+◌, ◌<◌, ◌↔◌, max, [], ◌∷◌, ◌++◌, OnOk, OnErr, IfSome, IfNone, IsNone};

use std::alloc::{AllocError, Global};
use std::marker::Model;

/// A change of the starts of a plan, with what undoes it. Interventions count from 0.
#[derive(Clone, Copy, Debug, PartialEq, Eq)]
pub enum Step {
    /// The start of intervention `i` was changed: it was `from`.
    Move { i: u32, from: u32 },
    /// The starts of interventions `i` and `j` were exchanged.
    Swap { i: u32, j: u32 },
}

/// A list of steps, the last one at the end. Contracts see it beside its spare: how many more steps fit without memory.
#[derive(Drop)]
pub struct Trail {
    steps: Vec<Step>,
    spare: usize,
}

impl Model for Trail {
    ghost use Rattle.std.specs.Prelude.{ℕ, ◌+◌, ◌≤◌, List, vec_len, vec_capacity};
    ghost use Rattle.undo_trail.specs.declared.Step.{Step};

    ghost Value = { List Step × ℕ };

    ghost view = { λ t. (t.steps.items, t.spare) };

    ghost invariant = { λ t. vec_len t.steps + t.spare ≤ vec_capacity t.steps };
}

impl Trail {
    /// A trail without steps and without spare. It takes no memory.
    pub fn make(alloc: Global) -> Trail
        ensures { result ≡ ([], 0) }
    {
        Trail {
            steps: Vec::new(alloc),
            spare: 0,
        }
    }

    /// How many more steps fit without memory.
    pub fn spare(&self) -> usize
        ensures { result ≡ self.now.1 }
    {
        self.spare
    }

    /// Makes the spare `n`, where it was less. After a refusal the trail is as before.
    pub fn reserve(&mut self, n: usize) -> Result<(), AllocError>
        ensures steps { self.new.0 ≡ self.old.0 }
        ensures ok { OnOk result (self.new.1 ≡ max self.old.1 n) }
        ensures err { OnErr result (self.new ≡ self.old) }
    {
        if self.spare < n {
            self.steps.reserve(n)?;
            self.spare = n;
        }
        Ok(())
    }

    /// Puts a step behind the others. It takes one of the spare, and no memory.
    pub fn push(&mut self, step: Step)
        requires { 0 < self.old.1 }
        ensures steps { self.new.0 ≡ self.old.0 ++ step ∷ [] }
        ensures spare { self.new.1 + 1 ≡ self.old.1 }
    {
        match self.steps.push(step) {
            Ok(()) => {}
            Err(_) => unreachable!(),
        }
        self.spare -= 1;
    }

    /// Takes the last step off, and gives one back to the spare; nothing where there is no step.
    pub fn pop(&mut self) -> Option<Step>
        ensures empty { IsNone result ↔ (self.old.0 ≡ []) }
        ensures last { IfSome result (λ step. self.old.0 ≡ self.new.0 ++ step ∷ []) }
        ensures spare { IfSome result (λ _. self.new.1 ≡ self.old.1 + 1) }
        ensures same { IfNone result (self.new ≡ self.old) }
    {
        let step = self.steps.pop()?;
        self.spare += 1;
        Some(step)
    }
}
