//! Kept plans, what is kept of their risks, loads and exclusions, and descents from them with their scripts, on small
//! instances; rows of sums, and the trail: the tests of `local_search`, `plan_moves` and the crates that these stand
//! on. And a law of descents.

#[cfg(test)]
mod clashes;
#[cfg(test)]
mod descents;
#[cfg(test)]
mod kept;
mod laws;
#[cfg(test)]
mod loads;
#[cfg(test)]
mod risk_rows;
#[cfg(test)]
mod rows;
#[cfg(test)]
mod samples;
#[cfg(test)]
mod scripted_descents;
#[cfg(test)]
mod trail;

pub use laws::descents_replay_to_falling_keys;
