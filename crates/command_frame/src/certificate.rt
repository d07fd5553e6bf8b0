//! Certificates, as commands read, check, make and write them.
ghost use Rattle.std.specs.Prelude.{◌≡◌, ◌≢◌, ◌⊎◌, Ok, Err, IsTrue, IfOk};
ghost use Rattle.plan_desk.specs.Written.{WritesText};
ghost use Rattle.instance_model.specs.Tables.{Tables};
ghost use Rattle.certificate_tree.specs.PriceTables.{AreTablesOf};
ghost use Rattle.certificate_text.specs.Lengths.{counted_length};
ghost use Rattle.certificate_text.specs.declared.read.fault.CertFault.{CertFault};
ghost use Rattle.certificate_text.specs.declared.read.fault.CertFault.TheVariants.{Memory};
ghost use Rattle.command_frame.specs.Kinds.{CertificateKind, IsLawfulKind};

use certificate_text::{Bound, CertFault, Node, Nodes};
use instance_model::Instance;
use lagrange_bound::PriceTable;
use plan_desk::{Desk, Failed};
use std::alloc::{AllocError, Global};

/// A certificate of some kind: a bound on the scores of all plans, or that no plan keeps the rules, with a tree that
/// proves it by price lists. Commands read, check, make and write any.
pub trait FileCertificate: Sized + Drop {
    /// What certificates of this kind are.
    ghost kind: { CertificateKind Self };

    /// What holds of all that are in range. The function does nothing: the contract is the law.
    fn laws(inst: &Instance)
        ensures { IsLawfulKind kind inst.now };

    /// Reads the certificate that a text spells. Each fault is that of the first line that has one.
    fn read(alloc: Global, inst: &Instance, bytes: &[u8]) -> Result<Self, CertFault>
        // What is read is in range and spelled so, and what is spelled is read.
        ensures found { IfOk result (kind.texts.is_text inst.now bytes.now) }
        ensures in_range { IfOk result (kind.range inst.now) }
        ensures complete { (cert : Self) → kind.texts.is_text inst.now bytes.now cert
            → (result ≡ Ok cert) ⊎ (result ≡ Err Memory) }

        // What is told is the text's fault, and a fault is told.
        ensures fault { (fault : CertFault) → result ≡ Err fault → fault ≢ Memory
            → kind.texts.has_fault inst.now bytes.now fault }
        ensures refused { (fault : CertFault) → kind.texts.has_fault inst.now bytes.now fault
            → (result ≡ Err fault) ⊎ (result ≡ Err Memory) };

    /// The bound that is claimed.
    fn bound(&self) -> Bound
        ensures { (inst : Tables) → result ≡ (kind.claim inst self.now).bound };

    /// The nodes of the tree.
    fn nodes(&self) -> &[Node]
        ensures { (inst : Tables) → result.now ≡ (kind.claim inst self.now).nodes };

    /// The tables of the price lists, that of the list of zeros first. Takes memory for each.
    fn tables(&self, alloc: Global, inst: &Instance) -> Result<Vec<PriceTable>, AllocError>
        requires { kind.range inst.now self.now }
        ensures { IfOk result (λ tables. AreTablesOf inst.now (kind.claim inst.now self.now).lists
            (kind.claim inst.now self.now).worths tables.items) };

    /// The same price lists with this bound and these nodes. Takes no memory.
    fn remade(self, bound: Bound, nodes: Nodes) -> Self
        ensures { result ≡ kind.remade self bound nodes };

    /// The length of the text. Takes no memory.
    fn text_length(&self, inst: &Instance) -> u64
        requires { kind.range inst.now self.now }
        ensures { result ≡ counted_length (kind.text inst.now self.now) };

    /// Writes the text to the file that is open. Takes no memory.
    fn write<D: Desk>(&self, inst: &Instance, desk: &mut D) -> Result<(), Failed>
        requires opened { IsTrue (D.shows desk.old).output.opened }
        requires in_range { kind.range inst.now self.now }
        ensures { WritesText (kind.text inst.now self.now) (D.shows desk.old) (D.shows desk.new) result };
}
