//! What a tree of boxes and a certificate become.
use certificate_tree::{Bound, Certificate, Nodes};

/// The nodes of a tree and the bound that they prove for the instance, and how many leaves are the same as before and
/// how many are others.
#[derive(Drop)]
pub struct ReboundTree {
    pub bound: Bound,
    pub nodes: Nodes,
    pub kept: u64,
    pub changed: u64,
}

/// A certificate that is valid for the instance, and how many leaves are the same as before and how many are others.
#[derive(Drop)]
pub struct Rebounded {
    pub cert: Certificate,
    pub kept: u64,
    pub changed: u64,
}
