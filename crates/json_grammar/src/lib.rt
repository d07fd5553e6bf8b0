//! JSON texts: the grammar, trees with the places of their values, events, and number tokens.
//!
//! `laws` has what follows of the definitions, and how a value is spelled.
#![tactic(auto)]

mod event;
mod fault;
mod laws;
mod num_text;
mod text;
mod token;
mod tree;

pub use event::Event;
pub use fault::TextFault;
pub use laws::{
    due_events_are_one_list, events_ascend, fault_excludes_text, fault_stays,
    spelled_alike_is_alike, spelled_is_read, spelled_is_shortest, text_has_one_answer,
    text_has_one_tree, text_is_utf8,
};
pub use num_text::{NumText, Token};
pub use text::Text;
pub use token::{Parts, digit_count, parts_of};
pub use tree::{Member, Node, Tree};
