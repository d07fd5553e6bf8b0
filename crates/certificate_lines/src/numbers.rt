//! The numbers of a line that has any number of them.
ghost use Rattle.std.specs.Prelude.{◌≡◌};

use std::marker::Model;

/// A list of numbers. None of its calls takes memory.
#[derive(Debug, Drop)]
pub struct Numbers {
    list: Vec<u64>,
}

impl Model for Numbers {
    ghost use Rattle.std.specs.Prelude.{List, ℕ};

    ghost Value = { List ℕ };

    ghost view = { λ n. n.list.items };
}

impl Numbers {
    pub fn from_vec(list: Vec<u64>) -> Self
        ensures { result ≡ list.items }
    {
        Numbers { list }
    }

    pub fn as_slice(&self) -> &[u64]
        ensures { result.now ≡ self.now }
    {
        &self.list
    }

    pub fn into_vec(self) -> Vec<u64>
        ensures { result.items ≡ self }
    {
        self.list
    }
}
