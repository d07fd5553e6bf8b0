//! Bounds on small instances: callers of the ladder of prices and of the checker of certificates, and refined price
//! lists beside what plain formulas say of them.
#![tactic(auto)]

mod certificates;
mod ladders;
#[cfg(test)]
mod refined;
#[cfg(test)]
mod samples;

pub use certificates::{Audit, audit_text};
pub use ladders::{raised_bound, root_worth};
