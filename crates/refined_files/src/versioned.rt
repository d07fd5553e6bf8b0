//! A certificate of any version, as commands read, check, make and write it.
ghost use Rattle.std.specs.Prelude.{◌≡◌};

use certificate_text::CertFault;
use certificate_tree::{Bound, Node, Nodes};
use command_frame::FileCertificate;
use instance_model::Instance;
use lagrange_bound::PriceTable;
use plan_desk::{Desk, Failed};
use refined_check::{RefinedCertificate, refined_lists_bound_boxes, refined_tables_of};
use refined_text::{any_texts_tell, read_any, refined_text_length, write_refined_certificate};
use std::alloc::{AllocError, Global};
use std::marker::Model;

/// A certificate by refined price lists, which a file of any version may hold.
#[derive(Drop)]
pub struct VersionedCertificate {
    cert: RefinedCertificate,
}

impl Model for VersionedCertificate {
    ghost use Rattle.refined_check.specs.declared.certificate.certificate.RefinedCertificate.{RefinedCertificate};

    ghost Value = { RefinedCertificate };

    ghost view = { λ v. v.cert };
}

impl VersionedCertificate {
    pub fn from_refined(cert: RefinedCertificate) -> VersionedCertificate
        ensures { result ≡ cert }
    {
        VersionedCertificate { cert }
    }

    pub fn as_refined(&self) -> &RefinedCertificate
        ensures { result.now ≡ self.now }
    {
        &self.cert
    }

    pub fn into_refined(self) -> RefinedCertificate
        ensures { result ≡ self }
    {
        let VersionedCertificate { cert } = self;
        cert
    }
}

impl FileCertificate for VersionedCertificate {
    ghost use Rattle.refined_files.specs.RefinedKind.{refined_kind};

    ghost kind = { refined_kind };

    fn laws(inst: &Instance) {
        inst.fits();
        any_texts_tell();
        refined_lists_bound_boxes();
    }

    fn read(
        alloc: Global,
        inst: &Instance,
        bytes: &[u8],
    ) -> Result<VersionedCertificate, CertFault> {
        match read_any(alloc, inst, bytes) {
            Ok(cert) => Ok(VersionedCertificate { cert }),
            Err(fault) => Err(fault),
        }
    }

    fn bound(&self) -> Bound {
        self.cert.bound
    }

    fn nodes(&self) -> &[Node] {
        self.cert.nodes.as_slice()
    }

    fn tables(&self, alloc: Global, inst: &Instance) -> Result<Vec<PriceTable>, AllocError> {
        refined_tables_of(alloc, inst, self.cert.lists.as_slice())
    }

    fn remade(self, bound: Bound, nodes: Nodes) -> VersionedCertificate {
        let VersionedCertificate { cert } = self;
        let RefinedCertificate { lists, .. } = cert;
        VersionedCertificate {
            cert: RefinedCertificate {
                bound,
                lists,
                nodes,
            },
        }
    }

    fn text_length(&self, inst: &Instance) -> u64 {
        refined_text_length(inst, &self.cert)
    }

    fn write<D: Desk>(&self, inst: &Instance, desk: &mut D) -> Result<(), Failed> {
        write_refined_certificate(inst, &self.cert, desk)
    }
}
