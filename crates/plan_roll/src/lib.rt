//! The rest of a year: an instance in which what begins before a period keeps its start. The other interventions may
//! only start in that period or later.
//!
//! A contract sees the plan so far as a list with one start or none for each intervention, in file order. Periods,
//! starts and scenarios count from 1; interventions count from 0.
#![tactic(auto)]

mod kept;
mod laws;
mod text;
mod view;

pub use instance_model::Rule;
pub use kept::kept_fault;
pub use laws::{plans_roll, rolled_tables_fit, rolled_text_is_read};
pub use text::{rolled_length, write_rolled};
