//! The scenarios and weights of a line that has any number of them.
ghost use Rattle.std.specs.Prelude.{◌≡◌};

use std::marker::Model;

/// A scenario and its weight, as a line has them.
#[derive(Clone, Copy, Debug, PartialEq, Eq)]
pub struct LineMember {
    pub scenario: u64,
    pub weight: u64,
}

/// A list of them. None of its calls takes memory.
#[derive(Debug, Drop)]
pub struct Members {
    list: Vec<LineMember>,
}

impl Model for Members {
    ghost use Rattle.std.specs.Prelude.{List};
    ghost use Rattle.refined_text.specs.declared.lines.members.LineMember.{LineMember};

    ghost Value = { List LineMember };

    ghost view = { λ m. m.list.items };
}

impl Members {
    pub fn from_vec(list: Vec<LineMember>) -> Members
        ensures { result ≡ list.items }
    {
        Members { list }
    }

    pub fn as_slice(&self) -> &[LineMember]
        ensures { result.now ≡ self.now }
    {
        &self.list
    }
}
