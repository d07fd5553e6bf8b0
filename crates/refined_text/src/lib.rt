//! The text of certificates by refined price lists: its lines, its grammar, how it is written and read, and
//! certificates of older versions as such ones.
//!
//! Contracts see a text as the list of its bytes; `refined_text` is the text of a certificate. To be read in this
//! order: `lines` says what one line may be, `text` writes a certificate and computes the length of its text, `grammar`
//! says which line may stand where, `read` reads a text or finds its fault, and `versions` reads texts of all versions.
#![tactic(auto)]

mod grammar;
mod lines;
mod read;
mod text;
mod versions;

pub use certificate_text::CertFault;
pub use grammar::{refined_entries_grow, refined_texts_lead, refined_texts_tell};
pub use lines::{
    LineMember, Members, RefinedLine, refined_line_of, refined_lines_are_spelled_one_way,
};
pub use read::{read_refined_certificate, refined_texts_are_told};
pub use text::{refined_text_length, write_refined_certificate};
pub use versions::{
    any_texts_tell, read_any, refined_certificate, refined_list, versions_hold_alike,
    versions_stay_in_range,
};
