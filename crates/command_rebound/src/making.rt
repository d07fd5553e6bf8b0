//! What is made of an instance and a certificate of any kind.
ghost use Rattle.std.specs.Prelude.{◌≡◌, IfOk};
ghost use Rattle.command_rebound.specs.Rebinding.{rebound_report};
ghost use Rattle.command_rebound.specs.Made.{IsMade};

use band_rebound::{ReboundTree, rebound_by};
use certificate_tree::{nodes_are_one_tree, proved_bounds_plans};
use command_answers::valid_is_accepted;
use command_frame::{FileCertificate, Text, push_bound_or_none, push_numbered, push_rounded};
use instance_model::Instance;
use lagrange_bound::{RiskGoal, worths_are_small};
use std::alloc::{AllocError, Global};

/// What the tree of a certificate becomes, and what is said of it.
#[derive(Drop)]
pub(crate) struct Made {
    pub tree: ReboundTree,
    pub report: Text,
}

/// Makes what the tree of the certificate becomes, and the report on it.
///
/// Takes memory for a table of each price list, for the new nodes, for one box and a change for each level of the tree,
/// for the plan and the score of a point, and for the report.
pub(crate) fn make<C: FileCertificate>(
    alloc: Global,
    inst: &Instance,
    cert: &C,
) -> Result<Made, AllocError>
    requires { C.kind.range inst.now cert.now }
    ensures { IfOk result (IsMade C.kind inst.now cert.now) }
{
    inst.fits();
    nodes_are_one_tree();
    proved_bounds_plans();
    worths_are_small(&RiskGoal);
    valid_is_accepted::<C>(inst);
    C::laws(inst);
    let tables = cert.tables(alloc, inst)?;
    let tree = rebound_by(alloc, inst, cert.nodes(), tables.as_slice())?;
    let report = report_on(alloc, inst, &tree)?;
    Ok(Made { tree, report })
}

/// The report on the new certificate.
fn report_on(alloc: Global, inst: &Instance, tree: &ReboundTree) -> Result<Text, AllocError>
    ensures { IfOk result (λ text. text ≡ rebound_report inst.now tree.now) }
{
    let mut text = Text::new(alloc);
    text.push("rebound\n")?;
    push_bound_or_none(&mut text, tree.bound)?;
    push_numbered(&mut text, "kept ", tree.kept)?;
    push_numbered(&mut text, "changed ", tree.changed)?;
    push_rounded(&mut text, inst.rounded())?;
    Ok(text)
}
