//! Certificates by refined price lists, as plain data, and which of them are in range.

mod certificate;
mod lists;

pub use certificate::RefinedCertificate;
pub use lists::RefinedLists;
