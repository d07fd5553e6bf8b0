//! Certificates audited from their texts: a caller of the reader and of the checker.
//!
//! The tests are worked certificates: every kind of leaf and of price, each at the exact edge of its bound and one
//! past it, texts cut off and texts damaged; and the texts of drawn instances.

mod audit;
#[cfg(test)]
mod deep;
#[cfg(test)]
mod drawn;
#[cfg(test)]
mod drawn_texts;
#[cfg(test)]
mod edges;
#[cfg(test)]
mod given;
#[cfg(test)]
mod leaves;
#[cfg(test)]
mod texts;
#[cfg(test)]
mod written;

pub use audit::{Audit, audit_text};
