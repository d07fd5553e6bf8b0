//! The answers of `evaluate`, `check` and `audit` to the bytes of files.
//!
//! A command that writes a plan or a certificate says of its bytes what one of these three answers to them. So the
//! relations of files and answers stand here, below all commands, with the laws that valid certificates are accepted.
#![tactic(auto)]

mod laws;
mod least;

pub use laws::{valid_is_accepted, valid_is_audited};
pub use least::push_least;
