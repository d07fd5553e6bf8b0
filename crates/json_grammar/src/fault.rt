//! Why bytes aren't read.
ghost use Rattle.std.specs.Prelude.{◌≡◌};
ghost use Rattle.json_grammar.specs.declared.fault.TextFault.TheVariants.{Memory};

use std::alloc::AllocError;
use thiserror::Error;

/// Why bytes aren't read as a JSON text; `at` is the offset of a byte.
#[derive(Clone, Copy, Debug, PartialEq, Eq, Drop, Error)]
pub enum TextFault {
    /// The first `at` bytes begin a JSON text, and with the next one, or with the end, they don't.
    #[error("no JSON text at byte {at}")]
    Syntax { at: u64 },
    /// The bracket or brace at `at` opens a 17th level.
    #[error("more than 16 levels at byte {at}")]
    TooDeep { at: u64 },
    #[error("out of memory")]
    Memory,
}

impl From<AllocError> for TextFault {
    ghost from_gives = { λ _ e. e ≡ Memory };

    fn from(_error: AllocError) -> TextFault {
        TextFault::Memory
    }
}
