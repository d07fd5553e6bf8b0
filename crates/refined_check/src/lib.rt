//! The checker of certificates by refined price lists: whether one is valid, else the first leaf that doesn't hold.
//!
//! It is the checker of any certificate for the score, by the tables of the refined lists and of the list of zeros that
//! certificates of any kind have. No feasible plan scores below the bound of a valid certificate.
//!
//! `certificate` has certificates as plain data, and which of them are in range.
#![tactic(auto)]

mod certificate;
mod checking;
mod laws;
mod tables;

pub use certificate::{RefinedCertificate, RefinedLists};
pub use certificate_check::CertVerdict;
pub use checking::check_refined;
pub use laws::{price_lists_are_refined, refined_lists_bound_boxes, refined_valid_bounds_plans};
pub use tables::{refined_table, refined_tables_of};
