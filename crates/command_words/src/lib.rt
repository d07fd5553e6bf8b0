//! The words of commands: files, whose names may have to differ, numbers, and the slack at the end.
//!
//! A program's own words are read by one parser for each command, which takes the words behind the command's name, and
//! owes `Parses`.
#![tactic(auto)]

mod files;
mod numbers;
mod source;

pub use files::{are_apart, are_file_words, given_of};
pub use numbers::{count_of, period_of, seed_of, span_of, turns_of};
pub use source::source_of;
