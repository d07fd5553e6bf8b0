//! Distinct keys in the order in which they were added. They are found by their size, so that no choice is slow.
#![tactic(auto)]

mod added;
mod hashes;
mod keys;
mod numbers;
#[cfg(test)]
mod tests;
mod texts;

pub use added::Added;
pub use hashes::TextHashes;
pub use keys::KeySet;
pub use numbers::NumberSet;
pub use texts::TextSet;
