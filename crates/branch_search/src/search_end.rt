//! What a search by tables answers.
use certificate_tree::{Bound, Nodes};
use instance_model::Starts;

/// A bound and the nodes of a tree that prove it, the best plan that was handed in or met, if there is one, and whether
/// a box is left that may have a better one.
#[derive(Drop)]
pub struct SearchEnd {
    pub bound: Bound,
    pub nodes: Nodes,
    pub best: Option<Starts>,
    pub unfinished: bool,
}
