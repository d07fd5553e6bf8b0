//! The command `audit`: a certificate of the least number of changes from a plan is checked.
//!
//! `RunsAudit` states what a run promises, by what the desk shows before and after it.
#![tactic(auto)]

mod audit;
mod report;

pub use audit::audit_files;
