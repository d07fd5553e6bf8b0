//! A focused breakout: from any plan of allowed starts to one that breaks less, and where it can nothing.
//!
//! What is found is a plan of allowed starts and no more: who calls judges it from scratch. So sums of the search stop
//! at the ends of their types or wrap, and places are looked up where nothing says that they are there.
#![tactic(auto)]

mod arrays;
mod bands;
mod breakout;
mod broken;
mod covers;
mod draft;
mod exclusions;
mod runs;
mod weight;

pub use breakout::mended;
