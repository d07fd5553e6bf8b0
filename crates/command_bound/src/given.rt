//! The certificate of a command, where one is given.
ghost use Rattle.std.specs.Prelude.{◌≡◌, IfSome, IfOk, IfErr, OnOk, option_copied};
ghost use Rattle.plan_desk.specs.Contents.{OnlyReads};
ghost use Rattle.command_frame.specs.Refusals.{CountsRefusal, AfterGiven};
ghost use Rattle.command_bound.specs.Given.{ReadsGivenCertificateBy, IsGivenCertificateCauseBy};

use command_frame::{FileCertificate, Refusal, certificate_of};
use instance_model::{Instance, Limits};
use plan_desk::Desk;
use std::alloc::Global;

/// The certificate of the file of this name, which is this word, if one is given.
pub(crate) fn given_certificate_of<C: FileCertificate, D: Desk>(
    alloc: Global,
    limits: &Limits,
    inst: &Instance,
    word: u64,
    name: Option<&str>,
    desk: &mut D,
) -> Result<Option<C>, Refusal>
    ensures ok { IfOk result (ReadsGivenCertificateBy C.kind.texts limits.now (option_copied name.entry) inst.now
        (D.shows desk.old)) }
    ensures in_range { IfOk result (λ given. IfSome given (C.kind.range inst.now)) }
    ensures err { IfErr result (IsGivenCertificateCauseBy C.kind.texts limits.now word (option_copied name.entry)
        inst.now (D.shows desk.old) (D.shows desk.new)) }
    ensures read { OnOk result (AfterGiven (option_copied name.entry) (D.shows desk.old) (D.shows desk.new)) }
    ensures faults { OnOk result ((D.shows desk.new).faults ≡ (D.shows desk.old).faults) }
    ensures kept { IfErr result (CountsRefusal (D.shows desk.old) (D.shows desk.new)) }
    ensures only_reads { OnlyReads (D.shows desk.old) (D.shows desk.new) }
{
    match name {
        None => Ok(None),
        Some(name) => Ok(Some(certificate_of(alloc, limits, inst, word, name, desk)?)),
    }
}
