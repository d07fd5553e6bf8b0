//! Why a text is no certificate.
ghost use Rattle.std.specs.Prelude.{◌≡◌};
ghost use Rattle.certificate_text.specs.declared.read.fault.CertFault.TheVariants.{Memory};

use std::alloc::{AllocError, AllocFailed};
use thiserror::Error;

/// Why a text is no certificate: the fault of its first line that has one. Lines count from 1.
#[derive(Clone, Copy, Debug, PartialEq, Eq, Error)]
pub enum CertFault {
    /// The line is needed, and the text ends before its line feed. It wins over the other two.
    #[error("line {n} is cut off")]
    Cut { n: u64 },
    /// The line is none that may stand there. It wins over `Bounds`.
    #[error("line {n} may not stand there")]
    BadLine { n: u64 },
    /// A number of the line is out of its range.
    #[error("line {n} has a number out of range")]
    Bounds { n: u64 },
    /// Memory ran out, which says nothing about the text.
    #[error("out of memory")]
    Memory,
}

impl From<AllocError> for CertFault {
    ghost from_gives = { λ _ fault. fault ≡ Memory };

    fn from(_: AllocError) -> CertFault {
        CertFault::Memory
    }
}

impl<T: Drop> From<AllocFailed<T>> for CertFault {
    ghost from_gives = { λ _ fault. fault ≡ Memory };

    fn from(_: AllocFailed<T>) -> CertFault {
        CertFault::Memory
    }
}
