//! What follows of the grammar of JSON texts: the laws of texts, of their faults and of streams. They are proved by the
//! reader as a machine that takes one byte after another, which `json_machine` runs.
//!
//! And a JSON value and its shortest text, which is read as the value: what a writer spells.

mod spelling_laws;
mod text_laws;

pub use spelling_laws::{spelled_alike_is_alike, spelled_is_read, spelled_is_shortest};
pub use text_laws::{
    due_events_are_one_list, events_ascend, fault_excludes_text, fault_stays, text_has_one_answer,
    text_has_one_tree, text_is_utf8,
};
