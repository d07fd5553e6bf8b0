//! Certificates read from their texts.
//!
//! `certificate_text` is the one text of a certificate, and `HasCertFault` says which fault a text has that is none.

mod entry;
mod fault;
mod fits;
mod header;
mod key;
mod laws;
mod lines;
mod lists;
mod node;
mod nodes;
mod read;
mod refusal;

pub use entry::set_entry;
pub use fault::CertFault;
pub use fits::counts_to;
pub use header::{bound_of, count_of};
pub use key::{EntryKey, key_of};
pub use laws::texts_are_told;
pub use lines::Lines;
pub use nodes::read_nodes;
pub use read::read_certificate;
pub use refusal::Refusal;
