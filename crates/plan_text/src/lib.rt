//! Plans as text, both ways.
//!
//! Contracts see a plan as the list of its starts, and a text as its bytes: `IsPlan` says which plan a text spells,
//! `HasPlanFault` which fault it has if it spells none, and `plan_text` is the one text that is written.
#![tactic(auto)]

mod fault;
mod laws;
mod line;
mod plan;
mod read;
mod write;

pub use fault::PlanFault;
pub use laws::{texts_are_told, texts_read_one_way};
pub use plan::Plan;
pub use read::read_plan;
pub use write::write_plan;
