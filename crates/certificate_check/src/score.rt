//! The check for the score, which the program makes.
ghost use Rattle.std.specs.Prelude.{◌≡◌, IfOk};
ghost use Rattle.lagrange_bound.specs.Goals.{risk_base, risk_value};
ghost use Rattle.certificate_tree.specs.Ranges.{IsInRange};
ghost use Rattle.certificate_tree.specs.Validity.{BoundsPlans};
ghost use Rattle.certificate_check.specs.declared.verdict.CertVerdict.{CertVerdict};
ghost use Rattle.certificate_check.specs.declared.verdict.CertVerdict.TheVariants.{Valid};
ghost use Rattle.certificate_check.specs.Verdicts.{IsVerdict};

use crate::{CertVerdict, check_for};
use certificate_tree::Certificate;
use instance_model::Instance;
use lagrange_bound::RiskGoal;
use std::alloc::{AllocError, Global};

/// Whether a certificate is valid for the score.
pub fn check(alloc: Global, inst: &Instance, cert: &Certificate) -> Result<CertVerdict, AllocError>
    requires { IsInRange inst.now cert.now }
    ensures verdict { IfOk result (IsVerdict risk_base risk_value inst.now cert.now) }

    // No other verdict is right.
    ensures only { IfOk result (λ verdict. (other : CertVerdict) →
        IsVerdict risk_base risk_value inst.now cert.now other → other ≡ verdict) }

    // Where the certificate is valid, no feasible plan scores below its bound.
    ensures bounds { IfOk result (λ verdict. verdict ≡ Valid → BoundsPlans risk_value inst.now cert.now.bound) }
{
    check_for(alloc, &RiskGoal, inst, cert)
}
