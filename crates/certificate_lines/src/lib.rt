//! The lines of a certificate: what one line may be, and its text, both ways.
//!
//! Contracts see a text as the list of its bytes. `spelling` says how each line is
//! written, and `IsLine` which lines have a form.
#![tactic(auto)]

mod bound_number;
mod keyword;
mod laws;
mod line;
mod numbers;
mod operands;
mod places;
mod read;
mod words;
mod write;

pub use laws::lines_are_spelled_one_way;
pub use line::{Bound, CertificateLine, Side, Version};
pub use numbers::Numbers;
pub use places::places_of;
pub use read::line_of;
pub use words::{cut_word, next_number, three};
pub use write::{write_line, write_tail, write_words};
