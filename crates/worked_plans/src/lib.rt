//! Plans judged, reported and read as texts, on hand-made instances: callers of `judge` and of the reports by period.
//!
//! The tests are worked rows: bands, seasons, exclusions, starts, ranks and values, all over small instances; what
//! these stand on, numbers and windows of periods; reports, said to a desk in memory; and the texts of plans, scripts
//! and certificates, line by line.
#![tactic(auto)]

#[cfg(test)]
mod bands;
#[cfg(test)]
mod exclusions;
mod kept;
#[cfg(test)]
mod numbers;
#[cfg(test)]
mod sketches;
#[cfg(test)]
mod starts;
mod tables;
#[cfg(test)]
mod texts;
#[cfg(test)]
mod values;
#[cfg(test)]
mod verdicts;
#[cfg(test)]
mod windows;

pub use kept::keeps_rules;
pub use tables::is_feasible;
