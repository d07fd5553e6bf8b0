//! Which line may stand where in the text of a certificate by refined price lists, and the laws that tie the lines of
//! such a text to the certificate.

mod laws;

pub use laws::{refined_entries_grow, refined_texts_lead, refined_texts_tell};
