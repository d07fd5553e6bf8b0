//! What is made.
use instance_model::Starts;
use refined_check::RefinedCertificate;

/// A certificate, the best plan that was handed in or met, if there is one, and whether a box is left that may have a
/// better one; how many splits were made, and of the leaves of the old certificate how many stayed as they were and how
/// many became others.
#[derive(Drop)]
pub struct Raised {
    pub cert: RefinedCertificate,
    pub best: Option<Starts>,
    pub unfinished: bool,
    pub splits: u32,
    pub kept: u64,
    pub changed: u64,
}
