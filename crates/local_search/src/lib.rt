//! A descent from a kept plan: changes to neighbours of lower key, until none or no turn is left.
//!
//! Contracts see the changes as a list, and the plans that they lead to as those of the kept plan. Turns count changes.
//!
//! A descent sets out from the plan of least allowed starts, or an intervention has none (`opening_of`). What it came
//! to is told by `descend_from`, or by `present_starts` and `is_feasible` where its plans are still kept.
#![tactic(auto)]

mod best;
mod descent;
mod ending;
mod exchange;
mod opening;
mod progress;
mod rounds;
mod target;
mod walk;

pub use descent::{Descent, descend};
pub use ending::{Descended, descend_from, is_feasible, present_starts};
pub use opening::{Opening, opening_of};
