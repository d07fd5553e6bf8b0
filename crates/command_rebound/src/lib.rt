//! The command `rebound`: a certificate for other bands becomes one for these, and is written.
//!
//! `RunsReboundBy` states what a run promises for a kind of certificates, by what the desk shows before and after it,
//! and `RunsRebound` for versions 1 and 2.
#![tactic(auto)]

mod making;
mod rebound;

pub use rebound::{rebound_files, rebound_files_by};
