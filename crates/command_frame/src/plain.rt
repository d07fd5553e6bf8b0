//! Certificates of versions 1 and 2, as commands read, check, make and write them.
use crate::certificate::FileCertificate;
use certificate_text::{
    Bound, CertFault, Certificate, Node, Nodes, read_certificate, text_length, texts_tell,
    write_certificate,
};
use certificate_tree::{lists_bound_boxes, tables_of};
use instance_model::Instance;
use lagrange_bound::{PriceTable, RiskGoal};
use plan_desk::{Desk, Failed};
use std::alloc::{AllocError, Global};

impl FileCertificate for Certificate {
    ghost use Rattle.command_frame.specs.Kinds.{plain_kind};

    ghost kind = { plain_kind };

    fn laws(inst: &Instance) {
        inst.fits();
        texts_tell();
        lists_bound_boxes(&RiskGoal);
    }

    fn read(alloc: Global, inst: &Instance, bytes: &[u8]) -> Result<Certificate, CertFault> {
        read_certificate(alloc, inst, bytes)
    }

    fn bound(&self) -> Bound {
        self.bound
    }

    fn nodes(&self) -> &[Node] {
        self.nodes.as_slice()
    }

    fn tables(&self, alloc: Global, inst: &Instance) -> Result<Vec<PriceTable>, AllocError> {
        tables_of(alloc, &RiskGoal, inst, self.lists.as_slice())
    }

    fn remade(self, bound: Bound, nodes: Nodes) -> Certificate {
        let Certificate { version, lists, .. } = self;
        Certificate {
            version,
            bound,
            lists,
            nodes,
        }
    }

    fn text_length(&self, inst: &Instance) -> u64 {
        text_length(inst, self)
    }

    fn write<D: Desk>(&self, inst: &Instance, desk: &mut D) -> Result<(), Failed> {
        write_certificate(inst, self, desk)
    }
}
