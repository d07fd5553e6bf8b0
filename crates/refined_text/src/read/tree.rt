//! The nodes of a certificate, and the end of its text.
ghost use Rattle.std.specs.Prelude.{[], ◌∷◌, IfOk, IfErr};
ghost use Rattle.certificate_tree.specs.Trees.{root_box};
ghost use Rattle.certificate_text.specs.Grammar as place;
ghost use Rattle.refined_text.specs.grammar.Further.{no_further};
ghost use Rattle.refined_text.specs.grammar.Grammar.{within};
ghost use Rattle.refined_text.specs.read.Reading.{RefinedFails, ReadsTree};

use crate::read::lines::LinesLeft;
use certificate_text::{CertFault, read_nodes};
use certificate_tree::Nodes;
use instance_model::Instance;
use std::alloc::Global;

/// Reads the nodes of a tree over the box of all starts, behind which nothing may be left.
pub fn read_tree(
    alloc: Global,
    inst: &Instance,
    count: u32,
    lines: &LinesLeft<'_>,
) -> Result<Nodes, CertFault>
    ensures ok { IfOk result (ReadsTree inst.now count lines.now) }
    ensures err { IfErr result (RefinedFails inst.now (within (place.nodes count (root_box inst.now ∷ []))
        (no_further inst.now)) lines.now) }
{
    let mut rest = lines.nodes();
    let nodes = read_nodes(alloc, inst, count, &mut rest)?;
    rest.end()?;
    Ok(nodes)
}
