//! What the text of a certificate comes to.

ghost use Rattle.std.specs.Prelude.{◌≡◌, ◌⊎◌, ℕ, Ok, Err, IfOk};
ghost use Rattle.lagrange_bound.specs.Goals.{risk_base, risk_value};
ghost use Rattle.certificate_tree.specs.declared.certificate.Certificate.{Certificate};
ghost use Rattle.certificate_tree.specs.Validity.{IsValid, IsFirstFailing};
ghost use Rattle.certificate_text.specs.declared.read.fault.CertFault.{CertFault};
ghost use Rattle.certificate_text.specs.declared.read.fault.CertFault.TheVariants.{Memory};
ghost use Rattle.certificate_text.specs.read.Faults.{HasCertFault, IsTextOf};
ghost use Rattle.worked_bounds.specs.declared.certificates.audit.Audit.TheVariants.{Proved, LeafFails};
ghost use Rattle.worked_bounds.specs.Audited.{BoundsKeptPlans, IfProved};

use certificate_check::{CertVerdict, check};
use certificate_text::{Bound, CertFault, read_certificate};
use instance_model::Instance;
use std::alloc::Global;

/// What a certificate comes to for an instance.
#[derive(Clone, Copy, Debug, PartialEq, Eq)]
pub enum Audit {
    /// Every plan that keeps the rules has a score of at least this bound; where it is none, no plan keeps them.
    Proved(Bound),
    /// The first leaf that doesn't hold. Leaves count from 1 in pre-order.
    LeafFails { n: u64 },
}

/// Reads a certificate and checks it. Takes the memory that `read_certificate` and `check` take.
pub fn audit_text(alloc: Global, inst: &Instance, text: &[u8]) -> Result<Audit, CertFault>
    // What is proved holds for every plan.
    ensures proved { IfOk result (λ audit. IfProved audit (BoundsKeptPlans inst.now)) }

    // A valid certificate's bound is proved, the first failing leaf of another is
    // told, and the fault of a text that is none.
    ensures valid { (cert : Certificate) → IsTextOf inst.now text.now cert → IsValid risk_base risk_value inst.now cert
        → (result ≡ Ok (Proved cert.bound)) ⊎ (result ≡ Err Memory) }
    ensures fails { (cert : Certificate) (n : ℕ) → IsTextOf inst.now text.now cert
        → IsFirstFailing risk_base risk_value inst.now cert n → (result ≡ Ok (LeafFails n)) ⊎ (result ≡ Err Memory) }
    ensures fault { (fault : CertFault) → HasCertFault inst.now text.now fault
        → (result ≡ Err fault) ⊎ (result ≡ Err Memory) }
{
    inst.feasible_means_kept();
    let cert = read_certificate(alloc, inst, text)?;
    let verdict = check(alloc, inst, &cert)?;
    match verdict {
        CertVerdict::Valid => Ok(Audit::Proved(cert.bound)),
        CertVerdict::LeafFails { n } => Ok(Audit::LeafFails { n }),
    }
}
