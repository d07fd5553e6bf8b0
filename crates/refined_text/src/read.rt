//! Certificates by refined price lists read from their texts.
//!
//! `refined_text` is the one text of a certificate, and `HasRefinedCertFault` says which fault a text has that is none.

mod cliques;
mod groups;
mod header;
mod kind;
mod laws;
mod lines;
mod lists;
mod marks;
mod offsets;
mod part;
mod read;
mod tree;

pub use laws::refined_texts_are_told;
pub use read::read_refined_certificate;
