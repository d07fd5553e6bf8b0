//! A certificate by refined price lists is read from its text.
ghost use Rattle.std.specs.Prelude.{◌≡◌, ◌≢◌, ◌⊎◌, Ok, Err, IfOk, IfErr};
ghost use Rattle.certificate_text.specs.declared.read.fault.CertFault.{CertFault};
ghost use Rattle.certificate_text.specs.declared.read.fault.CertFault.TheVariants.{Memory};
ghost use Rattle.refined_check.specs.declared.certificate.certificate.RefinedCertificate.{RefinedCertificate};
ghost use Rattle.refined_text.specs.grammar.Grammar.{start};
ghost use Rattle.refined_text.specs.read.Faults.{HasRefinedFault, HasRefinedCertFault, IsRefinedTextOf};
ghost use Rattle.refined_text.specs.read.Reading.{RefinedFails, ReadsRefinedCertificate};

use crate::grammar::refined_texts_tell;
use crate::read::header::{read_bound, read_count, read_title};
use crate::read::lines::LinesLeft;
use crate::read::lists::read_lists;
use crate::read::tree::read_tree;
use certificate_text::CertFault;
use instance_model::Instance;
use refined_check::RefinedCertificate;
use std::alloc::Global;

/// Reads the certificate by refined price lists that a text spells. Each fault is that of the first line that has one.
pub fn read_refined_certificate(
    alloc: Global,
    inst: &Instance,
    bytes: &[u8],
) -> Result<RefinedCertificate, CertFault>
    // What is read is in range and spelled so, and what is spelled is read.
    ensures found { IfOk result (IsRefinedTextOf inst.now bytes.now) }
    ensures complete { (cert : RefinedCertificate) → IsRefinedTextOf inst.now bytes.now cert
        → (result ≡ Ok cert) ⊎ (result ≡ Err Memory) }

    // What is told is the text's fault, and a fault is told. A text has at most
    // one, and that of a certificate has none.
    ensures fault { (fault : CertFault) → result ≡ Err fault → fault ≢ Memory
        → HasRefinedCertFault inst.now bytes.now fault }
    ensures refused { (fault : CertFault) → HasRefinedCertFault inst.now bytes.now fault
        → (result ≡ Err fault) ⊎ (result ≡ Err Memory) }
{
    inst.fits();
    refined_texts_tell();
    read_whole(alloc, inst, bytes)
}

/// What is read is in range and spelled so, and each fault is the text's first.
fn read_whole(alloc: Global, inst: &Instance, bytes: &[u8]) -> Result<RefinedCertificate, CertFault>
    ensures found { IfOk result (IsRefinedTextOf inst.now bytes.now) }
    ensures fault { IfErr result (HasRefinedFault inst.now bytes.now) }
{
    let mut lines = LinesLeft::of(bytes);
    read_lines(alloc, inst, &mut lines)
}

/// Reads the lines of a certificate, behind which nothing may be left.
fn read_lines(
    alloc: Global,
    inst: &Instance,
    lines: &mut LinesLeft<'_>,
) -> Result<RefinedCertificate, CertFault>
    ensures ok { IfOk result (ReadsRefinedCertificate inst.now lines.old) }
    ensures err { IfErr result (RefinedFails inst.now start lines.old) }
{
    read_title(alloc, lines)?;
    let bound = read_bound(alloc, lines)?;
    let count = read_count(alloc, lines)?;
    let lists = read_lists(alloc, inst, count, lines)?;
    let nodes = read_tree(alloc, inst, count, lines)?;
    Ok(RefinedCertificate {
        bound,
        lists,
        nodes,
    })
}
