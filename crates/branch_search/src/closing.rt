//! What closes a box: a leaf that refutes it, or the plan of a box of one plan; else its worth bounds its plans.
mod point;
mod refuting;

pub(crate) use point::{is_single, take_point, take_starts};
pub(crate) use refuting::{leaf_over, refuting_part};
