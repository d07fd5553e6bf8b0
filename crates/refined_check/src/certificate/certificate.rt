//! A certificate by refined price lists, as plain data.
use crate::certificate::RefinedLists;
use certificate_tree::{Bound, Nodes};

/// A bound on the scores of all feasible plans, or that there is no such plan, with refined price lists and a tree that
/// prove it.
#[derive(Drop)]
pub struct RefinedCertificate {
    pub bound: Bound,
    pub lists: RefinedLists,
    pub nodes: Nodes,
}
