//! The one text that each certificate by refined price lists has, and how it is written.
//!
//! Contracts see a text as the list of its bytes. `refined_text` is the text of a certificate.
//!
//! `refined_text_length` computes the length of the text before it is written, and without memory. A number of 64 bits
//! counts the bytes. Sums stop at the greatest one, so the answer is the length of each text that has no more bytes
//! than that.

mod entries;
mod entry_lengths;
mod lengths;
mod put;
mod write;

pub use lengths::refined_text_length;
pub use write::write_refined_certificate;
