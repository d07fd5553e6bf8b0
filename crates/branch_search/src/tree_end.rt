//! What a search by price lists answers.
use certificate_tree::Certificate;
use instance_model::Starts;

/// A certificate, the best plan that was handed in or met, if there is one, and whether a box is left that may have a
/// better one.
#[derive(Drop)]
pub struct TreeEnd {
    pub cert: Certificate,
    pub best: Option<Starts>,
    pub unfinished: bool,
}
