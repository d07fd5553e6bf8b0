//! Searches on small instances, each step beside what was worked out by hand or judged from scratch; and a law of
//! descents.
#![tactic(auto)]

#[cfg(test)]
mod annealing;
mod moves;

pub use moves::descents_replay_to_falling_keys;
