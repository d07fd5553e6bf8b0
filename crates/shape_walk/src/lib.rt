//! The faults of shape of an instance, found over the events of its text, one by one.
#![tactic(auto)]

mod counts;
mod frame;
mod judged;
mod laws;
mod number_keys;
mod open;
mod seen;
mod taken;
mod values;
mod walk;

pub use laws::files_have_some_answer;
pub use taken::{Read, Taken};
pub use walk::ShapeWalk;
