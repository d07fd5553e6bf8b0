//! The verdict on a plan, from scratch: the first broken rule, or the values of a plan that breaks none.
//!
//! A contract sees a plan as a list with one start or none for each intervention, in file order. Periods, starts and
//! scenarios count from 1; interventions, resources and exclusions count from 0.
#![tactic(auto)]

mod bands;
mod enclosure;
mod exclusions;
mod period;
mod progress;
mod rank;
mod starts;
mod values;
mod verdict;

pub use bands::load_of_plan;
pub use enclosure::{ceil_and_more, floor_above_zero};
pub use instance_model::Rule;
pub use period::{read_sums, sum_scenarios, total_of};
pub use progress::is_in_progress;
pub use starts::broken_start;
pub use values::Values;
pub use verdict::{Verdict, broken_rule, judge, plan_values};
