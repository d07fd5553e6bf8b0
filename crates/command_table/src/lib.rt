//! The command `table`: a plan is reported period by period.
//!
//! `RunsTable` states what a run promises, by what the desk shows before and after it.
#![tactic(auto)]

mod table;

pub use table::table_files;
