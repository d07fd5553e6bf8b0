//! The command `check`: a certificate is checked, and beside it a plan, if one is given.
//!
//! `RunsCheckBy` states what a run promises for a kind of certificates, by what the desk shows before and after it, and
//! `RunsCheck` for versions 1 and 2.
#![tactic(auto)]

mod check;
mod verdict;

pub use check::{check_files, check_files_by};
