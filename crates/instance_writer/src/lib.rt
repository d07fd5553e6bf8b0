//! The text of an instance, written to a file in one pass or into memory, and its length. Only `instance_bytes` takes
//! memory.
//!
//! What is written is what an `InstanceView` shows of an instance, with numbers as some `Numerals` spell them. The walk
//! over the text stands once: it hands pieces to a `Sink`, which writes them, gathers them or counts their bytes.
//!
//! `text` says which text that is, and that it is read as the instance.
#![tactic(auto)]

mod count;
mod exclusions;
mod file;
mod full;
mod interventions;
mod loads;
mod marks;
mod memory;
mod numerals;
mod resources;
mod risks;
mod room;
mod seasons;
mod sink;
mod text;
mod view;
mod write;

pub use full::FullInstance;
pub use numerals::{Decimals, Numerals};
pub use sink::Sink;
pub use text::{counts_have_decimals, decimals_spell_numbers, names_are_spellable, texts_are_read};
pub use view::InstanceView;
pub use write::{instance_bytes, instance_length, write_instance};
