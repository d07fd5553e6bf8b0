//! The events of a JSON text that comes in pieces, each when it is due, and its first fault's place.
#![tactic(auto)]

mod counted_number;
mod counted_numbers;
mod number_key;
mod number_lanes;
mod pull;
mod sound_event;
mod unread;
mod up_to_event;

pub use counted_number::CountedNumber;
pub use counted_numbers::MOST_COUNTS;
pub use number_key::NumberKey;
pub use pull::{Pull, Pulled};
