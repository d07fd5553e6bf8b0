//! Why a replay comes to no end.
ghost use Rattle.std.specs.Prelude.{◌≡◌};
ghost use Rattle.move_script.specs.declared.replay_fault.ReplayFault.TheVariants as fault;

use plan_desk::Failed;
use std::alloc::AllocError;
use thiserror::Error;

/// Why a replay comes to no end. Lines count from 1.
#[derive(Clone, Copy, Debug, PartialEq, Eq, Error)]
pub enum ReplayFault {
    /// A start that the line sets isn't allowed.
    #[error("line {n} sets a start that isn't allowed")]
    NotAllowed { n: u64 },
    /// The line undoes where there is no plan but the opening.
    #[error("line {n} undoes where there is no change")]
    NothingToUndo { n: u64 },
    /// The desk failed.
    #[error("the desk failed")]
    Failed,
    /// Memory ran out, which says nothing about the script.
    #[error("out of memory")]
    Memory,
}

impl From<Failed> for ReplayFault {
    ghost from_gives = { λ _ given. given ≡ fault.Failed };

    fn from(_: Failed) -> ReplayFault {
        ReplayFault::Failed
    }
}

impl From<AllocError> for ReplayFault {
    ghost from_gives = { λ _ given. given ≡ fault.Memory };

    fn from(_: AllocError) -> ReplayFault {
        ReplayFault::Memory
    }
}
