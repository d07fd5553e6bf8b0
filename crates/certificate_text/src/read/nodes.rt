//! The nodes of a certificate.
ghost use Rattle.std.specs.Prelude.{◌≡◌, ◌<◌, List, [], ◌∷◌, length, map, IfOk, IfErr, OnOk};
ghost use Rattle.lagrange_bound.specs.declared.span.Span.{Span};
ghost use Rattle.certificate_tree.specs.Trees.{root_box};
ghost use Rattle.certificate_tree.specs.Walk.{first_box};
ghost use Rattle.certificate_text.specs.Text.{node_line};
ghost use Rattle.certificate_text.specs.Grammar as place;
ghost use Rattle.certificate_text.specs.read.Reading.{ReadsLine, Passes, Fails, IsNodeOf, DividesBox, boxes_after};

use crate::read::CertFault;
use crate::read::lines::Lines;
use crate::read::node::node_of;
use certificate_tree::{BoxPath, Node, Nodes};
use instance_model::Instance;
use lagrange_bound::Span;
use std::alloc::{AllocError, Global};

/// Reads the nodes of a tree over the box of all starts.
pub fn read_nodes(
    alloc: Global,
    inst: &Instance,
    lists: u32,
    lines: &mut Lines<'_>,
) -> Result<Nodes, CertFault>
    ensures ok { IfOk result (λ nodes. Passes inst.now (place.nodes lists (root_box inst.now ∷ [])) lines.old
        (map node_line nodes) (place.nodes lists []) lines.new) }
    ensures err { IfErr result (Fails inst.now (place.nodes lists (root_box inst.now ∷ [])) lines.old) }
{
    let mut path = BoxPath::root(alloc, inst)?;
    let mut nodes = Vec::new(alloc);
    while !path.has_ended() {
        let node = read_node(alloc, inst, lists, path.spans(), lines)?;
        pass_node(&mut path, node)?;
        nodes.push(node)?;
    }
    Ok(Nodes::from_vec(nodes))
}

/// Goes behind a node.
fn pass_node(path: &mut BoxPath, node: Node) -> Result<(), AllocError>
    requires some { 0 < length path.old }
    requires divides { DividesBox (first_box path.old) node }
    ensures { OnOk result (path.new ≡ boxes_after node path.old) }
{
    match node {
        Node::Split { i, last } => path.split(i, last),
        _ => {
            path.leave();
            Ok(())
        }
    }
}

/// Reads the node of a box.
fn read_node(
    alloc: Global,
    inst: &Instance,
    lists: u32,
    spans: &[Span],
    lines: &mut Lines<'_>,
) -> Result<Node, CertFault>
    requires each { length spans.now ≡ length inst.now.names }
    ensures ok { IfOk result (λ node. ReadsLine lines.old lines.new (node_line node)) }
    ensures in_range { IfOk result (λ node. IsNodeOf inst.now lists spans.now (node_line node) node) }
    ensures err { (boxes : List (List Span))
        → IfErr result (Fails inst.now (place.nodes lists (spans.now ∷ boxes)) lines.old) }
{
    let line = lines.next_line(alloc)?;
    match node_of(inst, lists, spans, &line) {
        Ok(node) => Ok(node),
        Err(refusal) => Err(lines.fault(refusal)),
    }
}
