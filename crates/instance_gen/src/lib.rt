//! The instance that is drawn from a number, for trials of large instances.
//!
//! `drawn_tables` says which one: the words of a `Pcg32` in the order of the draws, and all else by the count of
//! interventions. `drawn_text` is its text, with whole numbers and without blanks.
#![tactic(auto)]

mod draws;
mod laws;
mod numerals;
mod parts;
mod text;

pub use laws::{drawn_texts_are_read, starts_are_allowed};
pub use parts::drawn_instance;
pub use text::generate;
