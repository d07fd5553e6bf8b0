//! The command `bound`: a certificate by refined price lists is made for an instance, or one is gone on with, and is
//! written.
//!
//! `RunsBound` states what a run promises, by what the desk shows before and after it.
#![tactic(auto)]

mod bound;
mod given;
mod incumbent;
mod making;
mod within;

pub use bound::bound_files;
