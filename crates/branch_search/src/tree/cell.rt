//! The nodes of a tree under construction, and how one is split.
ghost use Rattle.std.specs.Prelude.{◌≡◌, ◌<◌, length, OnOk};
ghost use Rattle.branch_search.specs.Begun.{with_leaf};
ghost use Rattle.branch_search.specs.Growing.{split_cells};

use certificate_tree::Node;
use std::alloc::AllocError;

/// A node, the number of the split that it is a part of, and for a split the number of its left part.
#[derive(Clone, Copy)]
pub(crate) struct Cell {
    pub(crate) node: Node,
    pub(crate) parent: usize,
    pub(crate) left: usize,
}

/// Makes a split of a node, with two leaves as its parts.
pub(crate) fn split_cell(
    cells: &mut Vec<Cell>,
    number: usize,
    i: u32,
    last: u32,
    left: Node,
    right: Node,
) -> Result<(), AllocError>
    requires { number < length cells.old.items }
    ensures { OnOk result (cells.new.items ≡ split_cells cells.old.items number i last left right) }
{
    let next = cells.len();
    let parent = cells[number].parent;
    cells.push(Cell {
        node: left,
        parent: number,
        left: 0,
    })?;
    cells.push(Cell {
        node: right,
        parent: number,
        left: 0,
    })?;
    cells[number] = Cell {
        node: Node::Split { i, last },
        parent,
        left: next,
    };
    Ok(())
}

/// Gives a number a leaf.
pub(crate) fn set_leaf(cells: &mut Vec<Cell>, number: usize, node: Node)
    requires { number < length cells.old.items }
    ensures { cells.new.items ≡ with_leaf cells.old.items number node }
{
    let cell = cells[number];
    cells[number] = Cell {
        node,
        parent: cell.parent,
        left: cell.left,
    };
}
