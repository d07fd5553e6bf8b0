//! A certificate is read from its text.
ghost use Rattle.std.specs.Prelude.{◌≡◌, ◌≢◌, ◌⊎◌, Ok, Err, IfOk, IfErr};
ghost use Rattle.certificate_tree.specs.declared.certificate.Certificate.{Certificate};
ghost use Rattle.certificate_text.specs.Grammar as place;
ghost use Rattle.certificate_text.specs.declared.read.fault.CertFault.{CertFault};
ghost use Rattle.certificate_text.specs.declared.read.fault.CertFault.TheVariants.{Memory};
ghost use Rattle.certificate_text.specs.read.Faults.{HasFault, HasCertFault, IsTextOf};
ghost use Rattle.certificate_text.specs.read.Reading.{Fails, ReadsCertificate};

use crate::laws::texts_tell;
use crate::read::CertFault;
use crate::read::header::{read_bound, read_count, read_title};
use crate::read::lines::Lines;
use crate::read::lists::read_lists;
use crate::read::nodes::read_nodes;
use certificate_tree::Certificate;
use instance_model::Instance;
use std::alloc::Global;

/// Reads the certificate that a text spells. Each fault is that of the first line that has one.
pub fn read_certificate(
    alloc: Global,
    inst: &Instance,
    bytes: &[u8],
) -> Result<Certificate, CertFault>
    // What is read is in range and spelled so, and what is spelled is read.
    ensures found { IfOk result (IsTextOf inst.now bytes.now) }
    ensures complete { (cert : Certificate) → IsTextOf inst.now bytes.now cert
        → (result ≡ Ok cert) ⊎ (result ≡ Err Memory) }

    // What is told is the text's fault, and a fault is told. A text has at most
    // one, and that of a certificate has none.
    ensures fault { (fault : CertFault) → result ≡ Err fault → fault ≢ Memory → HasCertFault inst.now bytes.now fault }
    ensures refused { (fault : CertFault) → HasCertFault inst.now bytes.now fault
        → (result ≡ Err fault) ⊎ (result ≡ Err Memory) }
{
    inst.fits();
    texts_tell();
    read_whole(alloc, inst, bytes)
}

/// What is read is in range and spelled so, and each fault is the text's first.
fn read_whole(alloc: Global, inst: &Instance, bytes: &[u8]) -> Result<Certificate, CertFault>
    ensures found { IfOk result (IsTextOf inst.now bytes.now) }
    ensures fault { IfErr result (HasFault inst.now bytes.now) }
{
    let mut lines = Lines::of(bytes);
    let cert = read_lines(alloc, inst, &mut lines)?;
    lines.end()?;
    Ok(cert)
}

/// Reads the lines of a certificate.
fn read_lines(
    alloc: Global,
    inst: &Instance,
    lines: &mut Lines<'_>,
) -> Result<Certificate, CertFault>
    ensures ok { IfOk result (λ cert. ReadsCertificate inst.now lines.old cert lines.new) }
    ensures err { IfErr result (Fails inst.now place.title lines.old) }
{
    let version = read_title(alloc, lines)?;
    let bound = read_bound(alloc, version, lines)?;
    let count = read_count(alloc, version, lines)?;
    let lists = read_lists(alloc, inst, version, count, lines)?;
    let nodes = read_nodes(alloc, inst, count, lines)?;
    Ok(Certificate {
        version,
        bound,
        lists,
        nodes,
    })
}
