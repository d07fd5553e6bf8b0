//! Starts by intervention: contracts see the list. The plan of such starts.
ghost use Rattle.std.specs.Prelude.{◌≡◌, IfOk, Some, map};

use std::alloc::{AllocError, Global};
use std::marker::Model;

/// The plan that gives each intervention its start.
pub fn plan_of(alloc: Global, starts: &[u32]) -> Result<Vec<Option<u32>>, AllocError>
    ensures { IfOk result (λ plan. plan.items ≡ map Some starts.now) }
{
    starts.iter().map(|s| Some(*s)).collect(alloc)
}

/// Starts by intervention.
#[derive(Drop)]
pub struct Starts {
    items: Vec<u32>,
}

impl Model for Starts {
    ghost use Rattle.std.specs.Prelude.{ℕ, List};

    ghost Value = { List ℕ };

    ghost view = { λ s. s.items.items };
}

impl Starts {
    pub fn as_slice(&self) -> &[u32]
        ensures { result.now ≡ self.now }
    {
        self.items.as_slice()
    }

    pub fn from_vec(items: Vec<u32>) -> Starts
        ensures { result ≡ items.items }
    {
        Starts { items }
    }

    pub fn into_vec(self) -> Vec<u32>
        ensures { result.items ≡ self }
    {
        let Starts { items } = self;
        items
    }
}
