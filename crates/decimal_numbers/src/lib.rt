//! Exact decimals: what number tokens are worth, as counts of 10^-12, whole numbers and millionths.
#![tactic(auto)]

mod decimal;
mod digits;
mod nearest;
mod one_word;
mod tally;

pub use decimal::{fixed_of, millionths_of, whole_of, whole_of_number, whole_of_text};
pub use one_word::power_of_ten;
