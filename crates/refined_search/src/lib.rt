//! A certificate by refined price lists is made, or one is gone on with.
//!
//! The lists of the old certificate stay. If there is room, others are raised behind them: one by the ladder of prices,
//! told as a refined one, one by groups, and more over boxes that short searches leave open. The tree of the old
//! certificate becomes what it does by the worths of all of these, and the search goes on from it.
#![tactic(auto)]

mod begin;
mod box_lists;
mod compare;
mod lists;
mod open_box;
mod order;
mod plan;
mod raise;
mod raised;

pub use lists::MOST_LISTS;
pub use raise::raise_bound;
pub use raised::Raised;
