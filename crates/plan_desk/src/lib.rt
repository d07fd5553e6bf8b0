//! Devices: files that are read and written, and what is said.
//!
//! The rest of the program meets the outside by the trait [`Desk`] alone. Contracts see a desk as what it shows: the
//! file that is taken in, what files hold, what was said, how many calls failed, how many of them were a `say`, and the
//! last fault.
#![tactic(auto)]

mod bytes;
mod call;
mod desk;
mod due;
mod fault;
mod files;
mod find;
mod loops;
mod mem;
mod read_fault;
mod real;

pub use bytes::Bytes;
pub use call::{DeskCall, Failed};
pub use desk::Desk;
pub use loops::{read_all, say_all, say_pieces, write_all, write_pieces};
pub use mem::MemDesk;
pub use read_fault::ReadFault;
pub use real::RealDesk;

#[cfg(test)]
mod tests;
