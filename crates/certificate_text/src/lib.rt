//! The one text that each certificate has, and which line may stand where in it.
//!
//! Contracts see a text as the list of its bytes. `certificate_text` is the text of a certificate, and
//! `Leads` says which lines may follow each other.
//!
//! `text_length` computes the length of the text before it is written, and without memory. A number of 64 bits counts
//! the bytes. Sums stop at the greatest one, so the answer is the length of each text that has no more bytes than that.
//!
//! `read` reads such a text, or finds its fault.
#![tactic(auto)]

mod entries;
mod entry_lengths;
mod laws;
mod lengths;
mod limits;
mod line_lengths;
mod put;
mod read;
mod write;

pub use certificate_tree::{
    Bound, BoxPath, Certificate, Node, Nodes, PriceLists, Side, Version, band_holds, excl_holds,
    has_start, has_starts, nodes_are_one_tree, parts_are_boxes, parts_hold_plans,
    valid_bounds_plans,
};
pub use entries::write_entries;
pub use entry_lengths::entries_length;
pub use laws::{
    entries_grow, lead_to_certificates, lines_are_cut_one_way, texts_are_short, texts_lead,
    texts_tell, zeros_have_no_entry,
};
pub use lengths::{text_length, tree_length};
pub use line_lengths::{bound_length, count_length, word_length};
pub use put::put_line;
pub use read::{
    CertFault, EntryKey, Lines, Refusal, bound_of, count_of, counts_to, key_of, read_certificate,
    read_nodes, set_entry, texts_are_told,
};
pub use write::{write_certificate, write_tree};
