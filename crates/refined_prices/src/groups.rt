//! The groups of a tail: contracts see the list.
ghost use Rattle.std.specs.Prelude.{◌≡◌};

use crate::Group;
use std::alloc::AllocError;
use std::marker::Model;

/// Groups of scenarios of one period, counted from 0.
#[derive(Drop)]
pub struct Groups {
    items: Vec<Group>,
}

impl Model for Groups {
    ghost use Rattle.std.specs.Prelude.{List};
    ghost use Rattle.refined_prices.specs.declared.member.Member.{Member};

    ghost Value = { List (List Member) };

    ghost view = { λ groups. groups.items.items };
}

impl Clone for Groups {
    ghost is_clone = { λ groups copy. copy ≡ groups };

    fn clone(&self) -> Result<Groups, AllocError> {
        Ok(Groups {
            items: self.items.clone()?,
        })
    }
}

impl Groups {
    pub fn as_slice(&self) -> &[Group]
        ensures { result.now ≡ self.now }
    {
        self.items.as_slice()
    }

    pub fn from_vec(items: Vec<Group>) -> Groups
        ensures { result ≡ items.items }
    {
        Groups { items }
    }

    pub fn into_vec(self) -> Vec<Group>
        ensures { result.items ≡ self }
    {
        let Groups { items } = self;
        items
    }
}
