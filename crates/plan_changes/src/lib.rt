//! Changes of a plan against old starts: their number, the goal of few, and what can go back.
//!
//! Old starts are a list of one start or none for each intervention; an intervention past its end has none, and then
//! every start is a change. One change is worth 10^18, so bounds on values are bounds on numbers of changes.
#![tactic(auto)]

mod change_goal;
mod counting;
mod giving;
mod laws;
mod least;
mod trial;

pub use change_goal::ChangeGoal;
pub use counting::{changes, old_start};
pub use giving::give_back;
pub use laws::{bounds_count_changes, change_bases_add_up, old_starts_are_no_changes};
pub use least::least_changes;
