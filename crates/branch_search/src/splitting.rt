//! The beginning of a search, and one step: the leaf of least worth is split, and each part gets a leaf.
mod beginning;
mod current_box;
mod settling;
mod step;

pub(crate) use beginning::begin;
pub(crate) use current_box::CurrentBox;
pub(crate) use step::{left_worth, open_worth, split_least};
