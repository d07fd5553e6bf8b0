//! The leaves that are set aside: they are of no part that may be split, and of their worths the least is kept.
ghost use Rattle.std.specs.Prelude.{◌≡◌, OnOk};
ghost use Rattle.branch_search.specs.Aside.{lesser_of, IsFiled};

use crate::tree::waiting::{Waiting, await_leaf};
use std::alloc::AllocError;

/// The lesser of two numbers, each of which may be missing.
pub(crate) fn lesser(a: Option<i128>, b: Option<i128>) -> Option<i128>
    ensures { result ≡ lesser_of a b }
{
    match (a, b) {
        (Some(a), Some(b)) => Some(a.min(b)),
        (Some(a), None) => Some(a),
        (None, b) => b,
    }
}

/// Adds a number that has a worth to those that wait, where it may be split, and else sets it aside.
pub(crate) fn file_leaf(
    waiting: &mut Waiting,
    aside: &mut Option<i128>,
    may_split: bool,
    worth: Option<i128>,
    number: usize,
) -> Result<(), AllocError>
    ensures { OnOk result (IsFiled may_split worth number waiting.old waiting.new aside.old aside.new) }
{
    if may_split {
        await_leaf(waiting, worth, number)?;
    } else {
        *aside = lesser(worth, *aside);
    }
    Ok(())
}
