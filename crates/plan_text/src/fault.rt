//! Why a text is no plan.
ghost use Rattle.std.specs.Prelude.{◌≡◌};
ghost use Rattle.plan_text.specs.declared.fault.PlanFault.TheVariants.{Memory};

use std::alloc::AllocError;
use thiserror::Error;

/// Why a text is no plan: the fault of its first line that has one. Lines count from 1.
#[derive(Clone, Copy, Debug, PartialEq, Eq, Error)]
pub enum PlanFault {
    /// The line is no name with a start. It wins over the other two.
    #[error("line {n} is no name with a start")]
    BadLine { n: u64 },
    /// No intervention has the name. It wins over `Twice`.
    #[error("line {n} names no intervention")]
    UnknownName { n: u64 },
    /// An earlier line has the name.
    #[error("line {n} names an intervention again")]
    Twice { n: u64 },
    /// Memory ran out, which says nothing about the text.
    #[error("out of memory")]
    Memory,
}

impl From<AllocError> for PlanFault {
    ghost from_gives = { λ _ fault. fault ≡ Memory };

    fn from(_: AllocError) -> PlanFault {
        PlanFault::Memory
    }
}
