//! A tree under construction, with what waits and the best plan so far.
use crate::best::Best;
use crate::choosing::Chooser;
use crate::splitting::CurrentBox;
use crate::tree::cell::Cell;
use crate::tree::waiting::Waiting;

/// The nodes by number, the leaves that may be split, the least worth of those that may not, if there are any, the best
/// plan, if there is one, and how many splits were made; and the box that was split last, with what the next choice
/// begins from.
#[derive(Drop)]
pub(crate) struct Growth {
    pub(crate) cells: Vec<Cell>,
    pub(crate) waiting: Waiting,
    pub(crate) aside: Option<i128>,
    pub(crate) best: Option<Best>,
    pub(crate) splits: u32,
    pub(crate) current: CurrentBox,
    pub(crate) chooser: Chooser,
}
