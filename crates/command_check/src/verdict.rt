//! The verdict on a certificate of any kind.
ghost use Rattle.std.specs.Prelude.{◌≡◌, IfOk};
ghost use Rattle.lagrange_bound.specs.Goals.{risk_value};
ghost use Rattle.certificate_tree.specs.Validity.{BoundsPlans};
ghost use Rattle.certificate_check.specs.declared.verdict.CertVerdict.{CertVerdict};
ghost use Rattle.certificate_check.specs.declared.verdict.CertVerdict.TheVariants.{Valid};
ghost use Rattle.certificate_check.specs.Verdicts.{IsVerdictOn};

use certificate_check::{CertVerdict, verdict_by};
use certificate_tree::{nodes_are_one_tree, proved_bounds_plans, same_worths_prove_the_same};
use command_frame::FileCertificate;
use instance_model::Instance;
use lagrange_bound::RiskGoal;
use std::alloc::{AllocError, Global};

/// Whether what a certificate claims is proved for the score.
///
/// Takes memory for a table of each price list, for one box and a change for each level of the tree,
/// and for the plan and the score of a point.
pub(crate) fn verdict_of<C: FileCertificate>(
    alloc: Global,
    inst: &Instance,
    certificate: &C,
) -> Result<CertVerdict, AllocError>
    requires { C.kind.range inst.now certificate.now }
    ensures verdict { IfOk result (IsVerdictOn risk_value inst.now (C.kind.claim inst.now certificate.now)) }

    // No other verdict is right.
    ensures only { IfOk result (λ verdict. (other : CertVerdict) →
        IsVerdictOn risk_value inst.now (C.kind.claim inst.now certificate.now) other → other ≡ verdict) }

    // Where it is proved, no feasible plan has a score below its bound.
    ensures bounds { IfOk result (λ verdict. verdict ≡ Valid →
        BoundsPlans risk_value inst.now (C.kind.claim inst.now certificate.now).bound) }
{
    inst.fits();
    nodes_are_one_tree();
    same_worths_prove_the_same();
    proved_bounds_plans();
    C::laws(inst);
    let tables = certificate.tables(alloc, inst)?;
    let verdict = verdict_by(
        alloc,
        &RiskGoal,
        inst,
        certificate.bound(),
        certificate.nodes(),
        tables.as_slice(),
    )?;
    Ok(verdict)
}
