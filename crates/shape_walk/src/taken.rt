//! What a walk tells of an event that it takes.

use fixed_num::Fixed;
use instance_shape::Spot;

/// What is read of an event at its spot.
#[derive(Clone, Copy, Debug, PartialEq, Eq)]
pub enum Read {
    /// The count of 10^-12 nearest to a number, and whether it differs from the number.
    Count { count: Fixed, rounded: bool },
    /// A whole number, or the period or start that a key names.
    Whole(u32),
    /// A number of 10^-6, from 0 to 1,000,000 of them.
    Millionths(u32),
    Nothing,
}

/// Where an event stands, and what was read of it. The spot of a value is its own; that of a key, a closing bracket or
/// a closing brace is the spot of the object or list in which it stands.
#[derive(Clone, Copy, Debug, PartialEq, Eq)]
pub struct Taken {
    pub spot: Spot,
    pub read: Read,
}
