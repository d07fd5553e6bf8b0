//! The tree of boxes under construction: its nodes, the leaves that wait, and the answer that it becomes.
mod aside;
mod cell;
mod finishing;
mod growth;
mod node_box;
mod nodes;
mod waiting;

pub(crate) use aside::{file_leaf, lesser};
pub(crate) use cell::{Cell, set_leaf, split_cell};
pub(crate) use finishing::finish;
pub(crate) use growth::Growth;
pub(crate) use node_box::box_of;
pub(crate) use waiting::{Waiting, await_leaf};
