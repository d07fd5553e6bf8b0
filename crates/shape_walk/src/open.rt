//! An object that is open.

ghost use Rattle.std.specs.Prelude.{◌≡◌, true};
ghost use Rattle.instance_shape.specs.Shape.{kind_of};
ghost use Rattle.shape_walk.specs.Seen.{suits};

use crate::seen::Seen;
use instance_shape::Spot;

/// An object at a spot, with the keys that it has had and the spot of the value under the last one.
#[derive(Drop)]
pub struct Open {
    pub spot: Spot,
    pub seen: Seen,
    pub next: Spot,
    ghost suits: { suits seen (kind_of spot) ≡ true },
}
