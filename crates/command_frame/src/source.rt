//! The instance file of a command.

/// The name of the instance file, word 2, and how far its bands are widened, in counts of 10^-12.
#[derive(Clone, Copy)]
pub struct Source<'a> {
    pub instance: &'a str,
    pub slack: u32,
}
