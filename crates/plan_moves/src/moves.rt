//! Changes in order: contracts see the list.
ghost use Rattle.std.specs.Prelude.{◌≡◌};

use crate::Change;
use std::marker::Model;

/// Changes, in the order in which they are made.
#[derive(Drop)]
pub struct Moves {
    items: Vec<Change>,
}

impl Model for Moves {
    ghost use Rattle.std.specs.Prelude.{List};
    ghost use Rattle.plan_moves.specs.declared.change.Change.{Change};

    ghost Value = { List Change };

    ghost view = { λ m. m.items.items };
}

impl Moves {
    pub fn as_slice(&self) -> &[Change]
        ensures { result.now ≡ self.now }
    {
        self.items.as_slice()
    }

    pub fn from_vec(items: Vec<Change>) -> Moves
        ensures { result ≡ items.items }
    {
        Moves { items }
    }

    pub fn into_vec(self) -> Vec<Change>
        ensures { result.items ≡ self }
    {
        let Moves { items } = self;
        items
    }
}
