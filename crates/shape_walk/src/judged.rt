//! What is found out about an event.

ghost use Rattle.std.specs.Prelude.{◌≡◌};
ghost use Rattle.shape_walk.specs.declared.taken.Read.TheVariants.{Nothing};

use crate::taken::{Read, Taken};
use instance_shape::{Flaw, Spot};

/// What a walk tells of an event, and the first thing that is wrong with it.
#[derive(Clone, Copy)]
pub struct Judged {
    pub taken: Taken,
    pub flaw: Option<Flaw>,
}

impl Judged {
    /// Of an event of which nothing is read.
    pub fn unread(spot: Spot, flaw: Option<Flaw>) -> Judged
        ensures { result ≡ record { taken = record { spot = spot; read = Nothing }; flaw = flaw } }
    {
        Judged {
            taken: Taken {
                spot,
                read: Read::Nothing,
            },
            flaw,
        }
    }
}
