//! The calls of a desk, and the one answer of a call that failed.

/// The kinds of calls of a desk.
#[derive(Clone, Copy, Debug, PartialEq, Eq)]
pub enum DeskCall {
    TakeIn,
    Read,
    PutOut,
    Write,
    FinishOut,
    Say,
}

/// The one answer of a device that failed.
#[derive(Clone, Copy, Debug, PartialEq, Eq)]
pub struct Failed;
