//! The lines of version 3 of a certificate: what one line may be, and how it is read from its text.
//!
//! They are those of version 2 but for the title and the tails, and the lines of what refined price lists have besides.
//! Contracts see a text as the list of its bytes. `refined_spelling` says how each line is written, and
//! `IsRefinedLine` which lines have a form.

mod groups;
mod keyword;
mod laws;
mod line;
mod members;
mod operands;
mod read;

pub use laws::refined_lines_are_spelled_one_way;
pub use line::RefinedLine;
pub use members::{LineMember, Members};
pub use read::refined_line_of;
