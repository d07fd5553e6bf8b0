//! Reading a whole JSON text as a tree with the places of its values and keys.
#![tactic(auto)]

mod builder;
mod tree_reader;

pub use tree_reader::read_tree;
