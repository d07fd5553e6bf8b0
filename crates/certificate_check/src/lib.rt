//! The checker of certificates: whether one is valid, else the first leaf that doesn't hold.
//!
//! One walk over the nodes, in which each leaf is tested on its box, for any goal and any tables of prices. No feasible
//! plan has a value below the bound of a valid certificate.
#![tactic(auto)]

mod checking;
mod cost;
mod leaf;
mod point;
mod score;
mod verdict;

pub use checking::{check_for, verdict_by};
pub use point::{is_single, starts_of};
pub use score::check;
pub use verdict::CertVerdict;
