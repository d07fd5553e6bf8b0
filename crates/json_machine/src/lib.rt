//! A machine that takes the bytes of a JSON text one by one, or in runs, and tells its events.
#![tactic(auto)]

mod characters;
mod key_token;
mod literal_token;
mod machine;
mod number_run;
mod number_token;
mod phase;
mod raw_event;
mod string_token;
mod structure;
mod token_run;
mod within;

pub use characters::blank_count;
pub use literal_token::Begun;
pub use machine::{MOST_LEVELS, Machine, Mode};
pub use number_token::TakenToken;
pub use phase::Phase;
pub use raw_event::{Answer, RawEvent};
pub use within::Within;
