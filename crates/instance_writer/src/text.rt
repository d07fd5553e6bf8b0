//! An instance as a JSON text, and that the text is read as that instance.
//!
//! `instance_value` is the JSON value that is written, `instance_text` its shortest text. How numbers that needn't be
//! whole are spelled is a `Style`: contracts ask of it only that it spells each of them exactly.

mod laws;
mod names;

pub use laws::{counts_have_decimals, decimals_spell_numbers, texts_are_read};
pub use names::names_are_spellable;
