//! Where a box is split.
mod choice;
mod cover;
mod cut;
mod leading;
mod least_plan;
mod load_ranges;
mod member;
mod middle;
mod place_loads;
mod separation;
mod start_prices;
mod tree_size;

pub(crate) use choice::{Chooser, choose};
