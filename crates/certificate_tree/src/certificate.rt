//! A certificate, as plain data.
use crate::{Nodes, PriceLists};
use certificate_lines::{Bound, Version};

/// A bound on the values of all feasible plans, or that there is no such plan,
/// with price lists and a tree that prove it.
#[derive(Drop)]
pub struct Certificate {
    pub version: Version,
    pub bound: Bound,
    pub lists: PriceLists,
    pub nodes: Nodes,
}
