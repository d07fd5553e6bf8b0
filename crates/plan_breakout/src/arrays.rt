//! Arrays that are read and written by numbers of which nothing is known.

use std::alloc::{AllocError, Global};

/// No place of an array.
pub(crate) const NOWHERE: usize = usize::MAX;

/// The entry at a place, and 0 behind the last one.
#[inline]
pub(crate) fn entry(entries: &[usize], place: usize) -> usize {
    match entries.get(place) {
        Some(entry) => *entry,
        None => 0,
    }
}

/// Writes an entry, where there is a place for it.
#[inline]
pub(crate) fn put(entries: &mut [usize], place: usize, entry: usize) {
    if let Some(old) = entries.get_mut(place) {
        *old = entry;
    }
}

/// The same entry, so often.
pub(crate) fn filled(alloc: Global, entry: usize, count: usize) -> Result<Vec<usize>, AllocError> {
    let mut entries = Vec::new(alloc);
    entries.reserve(count)?;
    for _ in 0..count {
        entries.push(entry)?;
    }
    Ok(entries)
}

/// Some entries from a place to another, as far as they are there.
#[inline]
pub(crate) fn between<T>(entries: &[T], from: usize, past: usize) -> &[T] {
    let past = past.min(entries.len());
    let from = from.min(past);
    &entries[from..past]
}
