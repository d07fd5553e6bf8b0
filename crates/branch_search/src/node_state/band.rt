//! A band, and the limit of it that a load leaves.
use certificate_tree::Side;

/// Resource `c` in period `t`, and the side of its band.
#[derive(Clone, Copy, Debug, PartialEq, Eq)]
pub struct Band {
    pub c: u32,
    pub t: u32,
    pub side: Side,
}
