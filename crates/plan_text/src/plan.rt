//! A plan.
ghost use Rattle.std.specs.Prelude.{◌≡◌, ◌<◌, ℕ, List, Option, length};
ghost use Rattle.plan_text.specs.Spelling.{start_at};

use std::marker::Model;

/// One start or none for each intervention, in file order. Contracts see the list of them.
#[derive(Debug, Drop)]
pub struct Plan {
    starts: Vec<Option<u32>>,
}

impl Model for Plan {
    ghost Value = { List (Option ℕ) };

    ghost view = { λ p. p.starts.items };
}

impl Plan {
    pub fn from_vec(starts: Vec<Option<u32>>) -> Self
        ensures { result ≡ starts.items }
    {
        Plan { starts }
    }

    pub fn into_vec(self) -> Vec<Option<u32>>
        ensures { result.items ≡ self }
    {
        self.starts
    }

    pub fn as_slice(&self) -> &[Option<u32>]
        ensures { result.now ≡ self.now }
    {
        self.starts.as_slice()
    }

    /// The start of intervention `i`, which counts from 0.
    pub fn get(&self, i: u32) -> Option<u32>
        requires { i < length self.now }
        ensures { result ≡ start_at self.now i }
    {
        self.starts[i as usize]
    }
}
