//! Certificates of every version in files, as ones by refined price lists: what commands read, check, make and write.
//!
//! `refined_kind` is what contracts see of them. A file of any version is read, and version 3 is written.
#![tactic(auto)]

mod versioned;

pub use versioned::VersionedCertificate;
