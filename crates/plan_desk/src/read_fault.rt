//! The answers of a loop that reads a file whole.
ghost use Rattle.std.specs.Prelude.{◌≡◌};

use crate::Failed;
use std::alloc::AllocError;

/// Why a file was not read.
#[derive(Clone, Copy, Debug, PartialEq, Eq)]
pub enum ReadFault {
    /// The desk failed.
    Failed,
    /// The file has more bytes than its limit.
    TooLong,
    /// There was no memory for its bytes.
    Memory,
}

impl From<Failed> for ReadFault {
    ghost use Rattle.plan_desk.specs.declared.read_fault.ReadFault.{ReadFault};

    ghost from_gives = { λ _ e. e ≡ ReadFault.Failed };

    fn from(_: Failed) -> Self {
        ReadFault::Failed
    }
}

impl From<AllocError> for ReadFault {
    ghost use Rattle.plan_desk.specs.declared.read_fault.ReadFault.{ReadFault};

    ghost from_gives = { λ _ e. e ≡ ReadFault.Memory };

    fn from(_: AllocError) -> Self {
        ReadFault::Memory
    }
}
