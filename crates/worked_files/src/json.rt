//! JSON texts as trees, as events and as exact numbers: the tests of `json_tree`, `json_events` and `decimal_numbers`.

mod decimals;
mod samples;
mod streams;
mod trees;
