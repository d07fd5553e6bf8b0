//! A group of scenarios: contracts see the list of its members.
ghost use Rattle.std.specs.Prelude.{◌≡◌};

use crate::Member;
use std::alloc::AllocError;
use std::marker::Model;

/// Scenarios of a period with their weights, by ascending scenario.
#[derive(Drop)]
pub struct Group {
    items: Vec<Member>,
}

impl Model for Group {
    ghost use Rattle.std.specs.Prelude.{List};
    ghost use Rattle.refined_prices.specs.declared.member.Member.{Member};

    ghost Value = { List Member };

    ghost view = { λ group. group.items.items };
}

impl Clone for Group {
    ghost is_clone = { λ group copy. copy ≡ group };

    fn clone(&self) -> Result<Group, AllocError> {
        Ok(Group {
            items: self.items.clone()?,
        })
    }
}

impl Group {
    pub fn as_slice(&self) -> &[Member]
        ensures { result.now ≡ self.now }
    {
        self.items.as_slice()
    }

    pub fn from_vec(items: Vec<Member>) -> Group
        ensures { result ≡ items.items }
    {
        Group { items }
    }

    pub fn into_vec(self) -> Vec<Member>
        ensures { result.items ≡ self }
    {
        let Group { items } = self;
        items
    }
}
