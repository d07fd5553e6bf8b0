//! The numbers of names, and the texts of exclusions.

ghost use Rattle.std.specs.Prelude.{◌≡◌, ◌≤◌, [], IfOk, length, map, string_bytes, slice_index_or};
ghost use Rattle.instance_shape.specs.CrossFaults.{is_among, unknown, unless};
ghost use Rattle.instance_shape.specs.FileTables.{number_among};
ghost use Rattle.instance_rows.specs.Answers.{Tells};

use crate::fault::{CrossFault, RowsFault};
use ordered_keys::TextSet;
use std::alloc::Global;

/// The number of a name among some names, from 0. A fault: it is none of them.
pub fn number_of(alloc: Global, names: &TextSet, name: &str) -> Result<u32, RowsFault>
    requires { length names.now.texts.keys ≤ 1024 }
    ensures told { Tells (unless (is_among (map string_bytes names.now.texts.keys) name.now) (unknown name.now))
        result }
    ensures value { IfOk result (λ n. n ≡ number_among (map string_bytes names.now.texts.keys) name.now) }
{
    match names.index_of(name) {
        Some(number) => Ok(number as u32),
        None => Err(RowsFault::Across(CrossFault::Unknown(name.to_string(alloc)?))),
    }
}

/// Word `k` of some words, or no text.
pub fn word(words: &[String], k: usize) -> &str
    ensures { result.now ≡ slice_index_or (map string_bytes words.now) k [] }
{
    match words.get(k) {
        Some(word) => word.as_str(),
        None => "",
    }
}
