//! Certificates for changed bands: the same splits and price lists, made valid for an instance.
//!
//! A certificate that was made for an instance is in range for one with other bands. Each of its leaves becomes the
//! first that is right for its box there, and the bound becomes the least of what the new leaves are worth. So does a
//! tree of boxes by any tables of prices. Worths, values and bounds are in parts of 10^-18. `text_length` of
//! `certificate_text` is handed on: it says how long the text of the new certificate is.
#![tactic(auto)]

mod certificate;
mod growth;
mod leaf;
mod rebounded;
mod tree;
mod walk;

pub use certificate::rebound;
pub use certificate_text::text_length;
pub use rebounded::{ReboundTree, Rebounded};
pub use tree::rebound_by;
