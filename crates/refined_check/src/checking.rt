//! The check of a certificate by the tables of its lists: its contract is the verdict, and what that proves.
ghost use Rattle.std.specs.Prelude.{◌≡◌, IfOk};
ghost use Rattle.lagrange_bound.specs.Goals.{risk_value};
ghost use Rattle.certificate_tree.specs.Validity.{BoundsPlans};
ghost use Rattle.certificate_check.specs.declared.verdict.CertVerdict.{CertVerdict};
ghost use Rattle.certificate_check.specs.declared.verdict.CertVerdict.TheVariants.{Valid};
ghost use Rattle.refined_check.specs.certificate.Ranges.{IsRefinedInRange};
ghost use Rattle.refined_check.specs.Validity.{IsRefinedVerdict};

use crate::certificate::RefinedCertificate;
use crate::laws::refined_valid_bounds_plans;
use crate::tables::refined_tables_of;
use certificate_check::{CertVerdict, verdict_by};
use certificate_tree::{nodes_are_one_tree, same_worths_prove_the_same};
use instance_model::Instance;
use lagrange_bound::RiskGoal;
use std::alloc::{AllocError, Global};

/// Whether a certificate by refined price lists is valid for the score.
///
/// Takes memory for a table of each price list, for one box and a change for each level of the tree,
/// and for the plan and the score of a point.
pub fn check_refined(
    alloc: Global,
    inst: &Instance,
    cert: &RefinedCertificate,
) -> Result<CertVerdict, AllocError>
    requires { IsRefinedInRange inst.now cert.now }
    ensures verdict { IfOk result (IsRefinedVerdict inst.now cert.now) }

    // No other verdict is right.
    ensures only { IfOk result
        (λ verdict. (other : CertVerdict) → IsRefinedVerdict inst.now cert.now other → other ≡ verdict) }

    // Where the certificate is valid, no feasible plan scores below its bound.
    ensures bounds { IfOk result (λ verdict. verdict ≡ Valid → BoundsPlans risk_value inst.now cert.now.bound) }
{
    inst.fits();
    nodes_are_one_tree();
    same_worths_prove_the_same();
    refined_valid_bounds_plans();
    let tables = refined_tables_of(alloc, inst, cert.lists.as_slice())?;
    let verdict = verdict_by(
        alloc,
        &RiskGoal,
        inst,
        cert.bound,
        cert.nodes.as_slice(),
        tables.as_slice(),
    )?;
    Ok(verdict)
}
