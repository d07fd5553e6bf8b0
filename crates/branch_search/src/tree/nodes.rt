//! The nodes of a tree under construction in their order.
ghost use Rattle.std.specs.Prelude.{◌≡◌, map, IfOk};
ghost use Rattle.branch_search.specs.Growing.{node_at};
ghost use Rattle.branch_search.specs.Shapes.{Shape, numbers, IsShapeOf};

use crate::tree::cell::Cell;
use certificate_tree::Node;
use std::alloc::{AllocError, Global};

/// The nodes, each split before its left part, and that before its right part.
pub(crate) fn nodes_of(alloc: Global, cells: &[Cell]) -> Result<Vec<Node>, AllocError>
    requires { (shape : Shape) × IsShapeOf cells.now shape }
    ensures { IfOk result (λ nodes. (shape : Shape) → IsShapeOf cells.now shape
        → nodes.items ≡ map (node_at cells.now) (numbers shape)) }
{
    let mut nodes = Vec::new(alloc);
    let mut stack = Vec::new(alloc);
    stack.push(0usize)?;
    for _step in 0..cells.len() {
        let Some(k) = stack.pop() else {
            break;
        };
        let cell = cells[k];
        nodes.push(cell.node)?;
        if let Node::Split { .. } = cell.node {
            stack.push(cell.left + 1)?;
            stack.push(cell.left)?;
        }
    }
    Ok(nodes)
}
