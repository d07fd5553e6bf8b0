//! Bounds by raised prices: a caller of the ladder that says what its list proves.
//!
//! The tests are worked rows: the list that a small instance gets, number by number, worked out by hand.

mod bound;
#[cfg(test)]
mod rows;

pub use bound::{raised_bound, root_worth};
