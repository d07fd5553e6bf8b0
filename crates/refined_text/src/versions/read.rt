//! A certificate of any version is read from its text, as one by refined price lists.
ghost use Rattle.std.specs.Prelude.{◌≡◌, ◌≢◌, ◌⊎◌, Ok, Err, IfOk};
ghost use Rattle.certificate_text.specs.declared.read.fault.CertFault.{CertFault};
ghost use Rattle.certificate_text.specs.declared.read.fault.CertFault.TheVariants.{Memory};
ghost use Rattle.certificate_text.specs.read.Faults.{HasCertFault};
ghost use Rattle.refined_check.specs.declared.certificate.certificate.RefinedCertificate.{RefinedCertificate};
ghost use Rattle.refined_check.specs.certificate.Ranges.{IsRefinedInRange};
ghost use Rattle.refined_text.specs.versions.AnyTexts.{begins_refined, IsOlderText, IsAnyText, HasAnyFault};

use crate::read::read_refined_certificate;
use crate::versions::certificate::refined_certificate;
use crate::versions::laws::any_texts_tell;
use certificate_text::{CertFault, read_certificate};
use instance_model::Instance;
use refined_check::RefinedCertificate;
use std::alloc::Global;

/// Reads the certificate that a text spells, of whatever version, as one by refined price lists. Each fault is that of
/// the first line that has one.
pub fn read_any(
    alloc: Global,
    inst: &Instance,
    bytes: &[u8],
) -> Result<RefinedCertificate, CertFault>
    // What is read is spelled so, and what is spelled is read.
    ensures found { IfOk result (IsAnyText inst.now bytes.now) }
    ensures complete { (cert : RefinedCertificate) → IsAnyText inst.now bytes.now cert
        → (result ≡ Ok cert) ⊎ (result ≡ Err Memory) }
    ensures in_range { IfOk result (IsRefinedInRange inst.now) }

    // What is told is the text's fault, and a fault is told. A text has at most one, and
    // that of a certificate has none.
    ensures fault { (fault : CertFault) → result ≡ Err fault → fault ≢ Memory → HasAnyFault inst.now bytes.now fault }
    ensures refused { (fault : CertFault) → HasAnyFault inst.now bytes.now fault
        → (result ≡ Err fault) ⊎ (result ≡ Err Memory) }
{
    any_texts_tell();
    if is_refined(bytes) {
        read_refined_certificate(alloc, inst, bytes)
    } else {
        read_older(alloc, inst, bytes)
    }
}

/// Whether a text begins as those of version 3 do.
fn is_refined(bytes: &[u8]) -> bool
    ensures { result ≡ begins_refined bytes.now }
{
    bytes.starts_with(b"mpcert 3")
}

/// Reads the certificate of version 1 or 2 that a text spells.
fn read_older(alloc: Global, inst: &Instance, bytes: &[u8]) -> Result<RefinedCertificate, CertFault>
    ensures found { IfOk result (IsOlderText inst.now bytes.now) }
    ensures complete { (cert : RefinedCertificate) → IsOlderText inst.now bytes.now cert
        → (result ≡ Ok cert) ⊎ (result ≡ Err Memory) }
    ensures fault { (fault : CertFault) → result ≡ Err fault → fault ≢ Memory → HasCertFault inst.now bytes.now fault }
    ensures refused { (fault : CertFault) → HasCertFault inst.now bytes.now fault
        → (result ≡ Err fault) ⊎ (result ≡ Err Memory) }
{
    let cert = read_certificate(alloc, inst, bytes)?;
    let told = refined_certificate(alloc, inst, &cert)?;
    Ok(told)
}
