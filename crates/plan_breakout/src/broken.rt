//! What a plan breaks, as a list without an order.

use crate::arrays::{NOWHERE, entry, filled, put};
use std::alloc::{AllocError, Global};

/// Numbers of things, some of them marked.
#[derive(Drop)]
pub(crate) struct Broken {
    /// The marked ones first.
    list: Vec<usize>,
    count: usize,
    /// By number: its place in the list, if it is marked.
    places: Vec<usize>,
}

impl Broken {
    /// So many numbers, none of them marked.
    pub(crate) fn make(alloc: Global, numbers: usize) -> Result<Broken, AllocError> {
        Ok(Broken {
            list: filled(alloc, 0, numbers)?,
            count: 0,
            places: filled(alloc, NOWHERE, numbers)?,
        })
    }

    /// How many are marked.
    #[inline]
    pub(crate) fn count(&self) -> usize {
        self.count
    }

    /// Number `k` of those that are marked.
    #[inline]
    pub(crate) fn at(&self, k: usize) -> usize {
        entry(&self.list, k)
    }

    /// Marks a number, or takes its mark.
    #[inline]
    pub(crate) fn mark(&mut self, number: usize, broken: bool) {
        let place = entry(&self.places, number);
        if broken && place == NOWHERE {
            self.add(number);
        }
        if !broken && place != NOWHERE {
            self.remove(number, place);
        }
    }

    fn add(&mut self, number: usize) {
        put(&mut self.list, self.count, number);
        put(&mut self.places, number, self.count);
        self.count = self.count.wrapping_add(1);
    }

    /// Takes the mark of a number: the last one comes in its place.
    fn remove(&mut self, number: usize, place: usize) {
        self.count = self.count.wrapping_sub(1);
        let last = entry(&self.list, self.count);
        put(&mut self.list, place, last);
        put(&mut self.places, last, place);
        put(&mut self.places, number, NOWHERE);
    }
}
