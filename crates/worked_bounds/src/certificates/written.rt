//! Certificates written as they were read.

ghost use Rattle.certificate_tree.specs.Ranges.{IsInRange};

use crate::certificates::given::apart;
use crate::certificates::texts::whole;
use crate::samples::instance;
use certificate_text::{Certificate, read_certificate, write_certificate};
use instance_model::Instance;
use plan_desk::{Desk, DeskCall, Failed, MemDesk};
use std::alloc::Global;
use std::process::Abort;
use std::test::Fail;

/// Writes a certificate to the new file C.
fn write_new<D: Desk>(inst: &Instance, cert: &Certificate, desk: &mut D) -> Result<(), Failed>
    requires { IsInRange inst.now cert.now }
{
    desk.put_out("C")?;
    write_certificate(inst, cert, desk)
}

/// Reads a certificate for the instance of a text, writes it, and compares the two texts.
pub fn is_rewritten(rt: &impl Abort, alloc: Global, whole: &str, text: &str) -> Result<(), Fail> {
    let inst = instance(alloc, whole)?;
    is_rewritten_for(rt, alloc, &inst, text)
}

fn is_rewritten_for(
    rt: &impl Abort,
    alloc: Global,
    inst: &Instance,
    text: &str,
) -> Result<(), Fail> {
    let cert = read_certificate(alloc, inst, text.as_bytes())?;
    let mut desk = MemDesk::make(alloc);
    assert_eq!(rt; write_new(inst, &cert, &mut desk), Ok(()));
    assert_eq!(rt; desk.file("C"), Some(text.as_bytes()));
    Ok(())
}

/// Certificates with each kind of line, in both versions: beside these the whole one.
const TEXTS: [&str; 3] = [
    "mpcert 1\nbound none\nlists 0\ntree\nempty 2\n",
    "mpcert 1\nbound 0\nlists 1\nprices\nup 1 2 1\nlo 1 1 7\ntail 1 1 1\ntail 2 999 1\ntree\nband 1 2 under\n",
    "mpcert 2\nbound 1000000000000000000000000000000000000\nlists 1\nprices\nex 1 1 1\nex 1 2 1000000000\n\
        tree\ncost 1\n",
];

fn are_rewritten(rt: &impl Abort, alloc: Global, texts: &[&str]) -> Result<(), Fail> {
    for text in texts {
        is_rewritten(rt, alloc, apart(), text)?;
    }
    Ok(())
}

#[test]
fn a_certificate_is_written_as_it_was_read(rt: HostRuntime) -> Result<(), Fail> {
    is_rewritten(&rt, rt.alloc(), apart(), whole())?;
    are_rewritten(&rt, rt.alloc(), &TEXTS)
}

/// What writing this text answers, where the nth write fails.
fn write_at(alloc: Global, text: &str, nth: u32) -> Result<Result<(), Failed>, Fail> {
    let inst = instance(alloc, apart())?;
    write_for(alloc, &inst, text, nth)
}

fn write_for(
    alloc: Global,
    inst: &Instance,
    text: &str,
    nth: u32,
) -> Result<Result<(), Failed>, Fail> {
    let cert = read_certificate(alloc, inst, text.as_bytes())?;
    let mut desk = MemDesk::make(alloc);
    desk.fail_at(DeskCall::Write, nth)?;
    Ok(write_new(inst, &cert, &mut desk))
}

#[test]
fn a_failed_write_is_told(rt: HostRuntime) -> Result<(), Fail> {
    for nth in [1, 2, 9] {
        assert_eq!(rt; write_at(rt.alloc(), whole(), nth)?, Err(Failed), "{nth}");
    }
    Ok(())
}
