//! The answer of a check.

/// Whether a certificate is valid; where it isn't, the first leaf that doesn't hold. Leaves count from 1 in pre-order.
#[derive(Clone, Copy, Debug, PartialEq, Eq)]
pub enum CertVerdict {
    Valid,
    LeafFails { n: u64 },
}
