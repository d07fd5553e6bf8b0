//! The files of a command are read. None is changed, and nothing is said.
ghost use Rattle.std.specs.Prelude.{◌≡◌, ◌≤◌, [], length, All, option_copied, IfSome, IfOk, IfErr, OnOk};
ghost use Rattle.instance_shape.specs.Ranges.{AreStandard};
ghost use Rattle.plan_desk.specs.Desk.{ShowsSame, after_take_in};
ghost use Rattle.plan_moves.specs.Scripts.{NamesKnown};
ghost use Rattle.plan_desk.specs.Contents.{OnlyReads};
ghost use Rattle.command_frame.specs.Sources.{source_view};
ghost use Rattle.command_frame.specs.Files.{ReadsBytes, ReadsInstance, ReadsPlan, ReadsScript, ReadsGiven};
ghost use Rattle.command_frame.specs.Files.{ReadsCertificateBy};
ghost use Rattle.command_frame.specs.Refusals.{CountsRefusal, IsWithoutFailure, IsReadCause, IsInstanceCause};
ghost use Rattle.command_frame.specs.Refusals.{IsPlanCause, IsScriptCause, IsGivenCause, IsCertificateCauseBy};
ghost use Rattle.command_frame.specs.Refusals.{AfterGiven};

use crate::certificate::FileCertificate;
use crate::refusal::Refusal;
use crate::source::Source;
use certificate_text::CertFault;
use fixed_num::Fixed;
use instance_model::{Instance, Limits};
use instance_read::{StreamFault, read_instance_from};
use move_script::{Script, ScriptFault, read_script};
use plan_desk::{Bytes, Desk, ReadFault, read_all};
use plan_text::{Plan, PlanFault, read_plan};
use std::alloc::Global;

/// The instance of a command, its bands widened by the slack. Its file is this word.
pub fn instance_of<D: Desk>(
    alloc: Global,
    limits: &Limits,
    word: u64,
    source: &Source<'_>,
    desk: &mut D,
) -> Result<Instance, Refusal>
    requires standard { AreStandard limits.now }
    requires small { source.now.slack ≤ 1_000_000_000 }
    ensures ok { IfOk result (ReadsInstance limits.now (source_view source.now) (D.shows desk.old)) }
    ensures err { IfErr result
        (IsInstanceCause limits.now word source.now.instance.now (D.shows desk.old) (D.shows desk.new)) }
    ensures read { OnOk result
        (ShowsSame (D.shows desk.new) (after_take_in source.now.instance.now [] (D.shows desk.old))) }
    ensures faults { OnOk result ((D.shows desk.new).faults ≡ (D.shows desk.old).faults) }
    ensures kept { IfErr result (CountsRefusal (D.shows desk.old) (D.shows desk.new)) }
    ensures only_reads { OnlyReads (D.shows desk.old) (D.shows desk.new) }
{
    let slack = Fixed::from(u64::from(source.slack));
    match read_instance_from(alloc, limits, slack, desk, source.instance) {
        Ok(inst) => Ok(inst),
        Err(StreamFault::Failed) => Err(Refusal::Unread { word }),
        Err(StreamFault::TooLong) => Err(Refusal::LongInstance),
        Err(StreamFault::Text(fault)) => Err(Refusal::Instance(fault)),
        Err(StreamFault::Memory) => Err(Refusal::Memory),
    }
}

/// The bytes of the file of this name, which is this word of the command line. `long` refuses it where it has more than
/// `most`, which is no failure of a call.
fn bytes_of<D: Desk>(
    alloc: Global,
    name: &str,
    word: u64,
    most: u64,
    long: Refusal,
    desk: &mut D,
) -> Result<Bytes, Refusal>
    requires { IsWithoutFailure long }
    ensures bytes { IfOk result (ReadsBytes name.now (D.shows desk.old)) }
    ensures within { IfOk result (λ bytes. length bytes ≤ most) }
    ensures err { IfErr result (IsReadCause name.now word most long (D.shows desk.old) (D.shows desk.new)) }
    ensures read { OnOk result (ShowsSame (D.shows desk.new) (after_take_in name.now [] (D.shows desk.old))) }
    ensures faults { OnOk result ((D.shows desk.new).faults ≡ (D.shows desk.old).faults) }
    ensures kept { IfErr result (CountsRefusal (D.shows desk.old) (D.shows desk.new)) }
    ensures only_reads { OnlyReads (D.shows desk.old) (D.shows desk.new) }
{
    match read_all(alloc, desk, name, most) {
        Ok(bytes) => Ok(bytes),
        Err(ReadFault::Failed) => Err(Refusal::Unread { word }),
        Err(ReadFault::TooLong) => Err(long),
        Err(ReadFault::Memory) => Err(Refusal::Memory),
    }
}

/// The plan of the file of this name, which is this word.
pub fn plan_of<D: Desk>(
    alloc: Global,
    limits: &Limits,
    inst: &Instance,
    word: u64,
    name: &str,
    desk: &mut D,
) -> Result<Plan, Refusal>
    ensures ok { IfOk result (ReadsPlan limits.now name.now inst.now (D.shows desk.old)) }
    ensures each { IfOk result (λ plan. length plan ≡ length inst.now.names) }
    ensures err { IfErr result (IsPlanCause limits.now word name.now inst.now (D.shows desk.old) (D.shows desk.new)) }
    ensures read { OnOk result (ShowsSame (D.shows desk.new) (after_take_in name.now [] (D.shows desk.old))) }
    ensures faults { OnOk result ((D.shows desk.new).faults ≡ (D.shows desk.old).faults) }
    ensures kept { IfErr result (CountsRefusal (D.shows desk.old) (D.shows desk.new)) }
    ensures only_reads { OnlyReads (D.shows desk.old) (D.shows desk.new) }
{
    let most = limits.plan_bytes;
    let bytes = bytes_of(alloc, name, word, most, Refusal::LongPlan, desk)?;
    match read_plan(alloc, inst, bytes.as_slice()) {
        Ok(plan) => Ok(plan),
        Err(PlanFault::Memory) => Err(Refusal::Memory),
        Err(fault) => Err(Refusal::Plan(fault)),
    }
}

/// The script of the file of this name, which is this word.
pub fn script_of<D: Desk>(
    alloc: Global,
    limits: &Limits,
    inst: &Instance,
    word: u64,
    name: &str,
    desk: &mut D,
) -> Result<Script, Refusal>
    ensures ok { IfOk result (ReadsScript limits.now name.now inst.now (D.shows desk.old)) }
    ensures known { IfOk result (All (NamesKnown inst.now)) }
    ensures err { IfErr result (IsScriptCause limits.now word name.now inst.now (D.shows desk.old) (D.shows desk.new)) }
    ensures read { OnOk result (ShowsSame (D.shows desk.new) (after_take_in name.now [] (D.shows desk.old))) }
    ensures faults { OnOk result ((D.shows desk.new).faults ≡ (D.shows desk.old).faults) }
    ensures kept { IfErr result (CountsRefusal (D.shows desk.old) (D.shows desk.new)) }
    ensures only_reads { OnlyReads (D.shows desk.old) (D.shows desk.new) }
{
    let most = limits.script_bytes;
    let bytes = bytes_of(alloc, name, word, most, Refusal::LongScript, desk)?;
    match read_script(alloc, inst, bytes.as_slice()) {
        Ok(script) => Ok(script),
        Err(ScriptFault::Memory) => Err(Refusal::Memory),
        Err(fault) => Err(Refusal::Script(fault)),
    }
}

/// The plan of the file of this name, which is this word, if one is given.
pub fn given_plan_of<D: Desk>(
    alloc: Global,
    limits: &Limits,
    inst: &Instance,
    word: u64,
    name: Option<&str>,
    desk: &mut D,
) -> Result<Option<Plan>, Refusal>
    ensures ok { IfOk result (ReadsGiven limits.now (option_copied name.entry) inst.now (D.shows desk.old)) }
    ensures each { IfOk result (λ given. IfSome given (λ plan. length plan ≡ length inst.now.names)) }
    ensures err { IfErr result
        (IsGivenCause limits.now word (option_copied name.entry) inst.now (D.shows desk.old) (D.shows desk.new)) }
    ensures read { OnOk result (AfterGiven (option_copied name.entry) (D.shows desk.old) (D.shows desk.new)) }
    ensures faults { OnOk result ((D.shows desk.new).faults ≡ (D.shows desk.old).faults) }
    ensures kept { IfErr result (CountsRefusal (D.shows desk.old) (D.shows desk.new)) }
    ensures only_reads { OnlyReads (D.shows desk.old) (D.shows desk.new) }
{
    match name {
        None => Ok(None),
        Some(name) => Ok(Some(plan_of(alloc, limits, inst, word, name, desk)?)),
    }
}

/// The certificate of the file of this name, which is this word.
pub fn certificate_of<C: FileCertificate, D: Desk>(
    alloc: Global,
    limits: &Limits,
    inst: &Instance,
    word: u64,
    name: &str,
    desk: &mut D,
) -> Result<C, Refusal>
    ensures ok { IfOk result (ReadsCertificateBy C.kind.texts limits.now name.now inst.now (D.shows desk.old)) }
    ensures in_range { IfOk result (C.kind.range inst.now) }
    ensures err { IfErr result
        (IsCertificateCauseBy C.kind.texts limits.now word name.now inst.now (D.shows desk.old) (D.shows desk.new)) }
    ensures read { OnOk result (ShowsSame (D.shows desk.new) (after_take_in name.now [] (D.shows desk.old))) }
    ensures faults { OnOk result ((D.shows desk.new).faults ≡ (D.shows desk.old).faults) }
    ensures kept { IfErr result (CountsRefusal (D.shows desk.old) (D.shows desk.new)) }
    ensures only_reads { OnlyReads (D.shows desk.old) (D.shows desk.new) }
{
    let most = limits.certificate_bytes;
    let bytes = bytes_of(alloc, name, word, most, Refusal::LongCertificate, desk)?;
    match C::read(alloc, inst, bytes.as_slice()) {
        Ok(certificate) => Ok(certificate),
        Err(CertFault::Memory) => Err(Refusal::Memory),
        Err(fault) => Err(Refusal::Certificate(fault)),
    }
}
