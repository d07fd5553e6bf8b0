//! The walk over the nodes of a tree, for any goal and any tables: its contract is the verdict, and what that proves.
ghost use Rattle.std.specs.Prelude.{◌≡◌, ◌<◌, length, All, IfOk};
ghost use Rattle.lagrange_bound.specs.PricedTables.{IsPricedTable};
ghost use Rattle.certificate_tree.specs.Trees.{Tree};
ghost use Rattle.certificate_tree.specs.Ranges.{IsBoundInRange, IsInRange};
ghost use Rattle.certificate_tree.specs.Validity.{IsTreeOfClaim, BoundsPlans};
ghost use Rattle.certificate_tree.specs.PriceTables.{claim_by};
ghost use Rattle.certificate_check.specs.declared.verdict.CertVerdict.{CertVerdict};
ghost use Rattle.certificate_check.specs.declared.verdict.CertVerdict.TheVariants.{Valid};
ghost use Rattle.certificate_check.specs.Verdicts.{IsVerdictOn, IsVerdict};

use crate::CertVerdict;
use crate::leaf::leaf_holds;
use certificate_tree::{
    Bound, BoxPath, Certificate, Node, nodes_are_one_tree, same_worths_prove_the_same, tables_of,
    valid_bounds_plans,
};
use instance_model::Instance;
use lagrange_bound::{Goal, PriceTable};
use std::alloc::{AllocError, Global};

/// The verdict, by one walk over the nodes.
fn verdict_of<G: Goal>(
    alloc: Global,
    goal: &G,
    inst: &Instance,
    bound: Bound,
    nodes: &[Node],
    tables: &[PriceTable],
) -> Result<CertVerdict, AllocError>
    requires bound { IsBoundInRange bound }
    requires some { 0 < length tables.now }
    requires priced { All (IsPricedTable inst.now) tables.now }
    requires tree { (t : Tree) × IsTreeOfClaim inst.now (claim_by bound tables.now nodes.now) t }
    ensures { IfOk result
        (IsVerdictOn (G.value_gives goal.now) inst.now (claim_by bound tables.now nodes.now)) }
{
    inst.fits();
    let mut path = BoxPath::root(alloc, inst)?;
    let mut leaves: u64 = 0;
    for node in nodes {
        if path.has_ended() {
            break;
        }
        match *node {
            Node::Split { i, last } => path.split(i, last)?,
            leaf => {
                if !leaf_holds(alloc, goal, inst, bound, tables, path.spans(), leaf)? {
                    return Ok(CertVerdict::LeafFails { n: leaves + 1 });
                }
                leaves += 1;
                path.leave();
            }
        }
    }
    Ok(CertVerdict::Valid)
}

/// Whether the leaves of a tree hold by tables of prices, of which the first is that of list 0.
///
/// Takes memory for one box and a change for each level of the tree, and for the plan and the value of a point.
pub fn verdict_by<G: Goal>(
    alloc: Global,
    goal: &G,
    inst: &Instance,
    bound: Bound,
    nodes: &[Node],
    tables: &[PriceTable],
) -> Result<CertVerdict, AllocError>
    requires bound { IsBoundInRange bound }
    requires some { 0 < length tables.now }
    requires priced { All (IsPricedTable inst.now) tables.now }
    requires tree { (t : Tree) × IsTreeOfClaim inst.now (claim_by bound tables.now nodes.now) t }
    ensures verdict { IfOk result
        (IsVerdictOn (G.value_gives goal.now) inst.now (claim_by bound tables.now nodes.now)) }

    // No other verdict is right.
    ensures only { IfOk result (λ verdict. (other : CertVerdict) →
        IsVerdictOn (G.value_gives goal.now) inst.now (claim_by bound tables.now nodes.now) other → other ≡ verdict) }
{
    nodes_are_one_tree();
    let verdict = verdict_of(alloc, goal, inst, bound, nodes, tables)?;
    Ok(verdict)
}

/// Whether a certificate is valid for a goal.
///
/// Takes memory for a table of each price list, for one box and a change for each level of the tree,
/// and for the plan and the value of a point.
pub fn check_for<G: Goal>(
    alloc: Global,
    goal: &G,
    inst: &Instance,
    cert: &Certificate,
) -> Result<CertVerdict, AllocError>
    requires { IsInRange inst.now cert.now }
    ensures verdict { IfOk result (IsVerdict (G.base_gives goal.now) (G.value_gives goal.now) inst.now cert.now) }

    // No other verdict is right.
    ensures only { IfOk result (λ verdict. (other : CertVerdict) →
        IsVerdict (G.base_gives goal.now) (G.value_gives goal.now) inst.now cert.now other → other ≡ verdict) }

    // Where the certificate is valid, no feasible plan has a value below its bound.
    ensures bounds { IfOk result
        (λ verdict. verdict ≡ Valid → BoundsPlans (G.value_gives goal.now) inst.now cert.now.bound) }
{
    inst.fits();
    nodes_are_one_tree();
    same_worths_prove_the_same();
    valid_bounds_plans(goal);
    let tables = tables_of(alloc, goal, inst, cert.lists.as_slice())?;
    let verdict = verdict_by(
        alloc,
        goal,
        inst,
        cert.bound,
        cert.nodes.as_slice(),
        tables.as_slice(),
    )?;
    Ok(verdict)
}
