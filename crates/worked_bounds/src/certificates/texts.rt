//! Texts that are cut off or damaged, each told with the first line at fault.

use crate::Audit;
use crate::certificates::given::{apart, audited, fails_at, is_proved};
use certificate_text::{Bound, CertFault};
use std::alloc::{AllocError, Global};
use std::process::Abort;
use std::test::Fail;

/// A certificate with each kind of line but `empty`, accepted on `apart`. It has 17 lines.
pub fn whole() -> &'static str {
    "mpcert 2
bound -5
lists 2
prices
up 1 1 333333
lo 1 2 1000000000
tail 2 1000 1
ex 1 1 2000000
prices
tree
split 1 1
split 2 1
excl 1
point
split 2 1
cost 2
band 1 2 over
"
}

/// A part of the text, what stands in its place, and the fault then.
const DAMAGED: [(&str, &str, CertFault); 51] = [
    ("mpcert 2", "mpcert 3", CertFault::BadLine { n: 1 }),
    ("mpcert 2", "mpcert 02", CertFault::BadLine { n: 1 }),
    ("mpcert 2", " mpcert 2", CertFault::BadLine { n: 1 }),
    ("mpcert 2\n", "", CertFault::BadLine { n: 1 }),
    ("mpcert 2\n", "mpcert 2\r\n", CertFault::BadLine { n: 1 }),
    // Version 1 has no prices on exclusions.
    ("mpcert 2", "mpcert 1", CertFault::BadLine { n: 8 }),
    ("bound -5", "bound -0", CertFault::BadLine { n: 2 }),
    ("bound -5", "bound +5", CertFault::BadLine { n: 2 }),
    ("bound -5", "bound 05", CertFault::BadLine { n: 2 }),
    ("bound -5", "bound None", CertFault::BadLine { n: 2 }),
    (
        "bound -5",
        "bound 1000000000000000000000000000000000001",
        CertFault::Bounds { n: 2 },
    ),
    (
        "bound -5",
        "bound -1000000000000000000000000000000000001",
        CertFault::Bounds { n: 2 },
    ),
    // A number has at most 19 digits, a bound 37.
    (
        "bound -5",
        "bound 10000000000000000000000000000000000000",
        CertFault::BadLine { n: 2 },
    ),
    (
        "lists 2",
        "lists 10000000000000000000",
        CertFault::BadLine { n: 3 },
    ),
    ("lists 2", "lists 17", CertFault::Bounds { n: 3 }),
    ("lists 2", "lists 3", CertFault::BadLine { n: 10 }),
    ("lists 2", "lists 1", CertFault::BadLine { n: 9 }),
    ("up 1 1", "up 0 1", CertFault::Bounds { n: 5 }),
    ("up 1 1", "up 2 1", CertFault::Bounds { n: 5 }),
    ("up 1 1", "up 1 0", CertFault::Bounds { n: 5 }),
    ("up 1 1", "up 1 3", CertFault::Bounds { n: 5 }),
    ("up 1 1", "up 01 1", CertFault::BadLine { n: 5 }),
    ("up 1 1", "up  1 1", CertFault::BadLine { n: 5 }),
    (" 333333\n", " 333333 \n", CertFault::BadLine { n: 5 }),
    (" 333333\n", "\n", CertFault::BadLine { n: 5 }),
    (" 333333\n", " 0\n", CertFault::Bounds { n: 5 }),
    ("1000000000\n", "1000000001\n", CertFault::Bounds { n: 6 }),
    // Entries ascend, and no two have the same place.
    ("lo 1 2", "up 1 1", CertFault::BadLine { n: 6 }),
    ("tail 2", "lo 1 2", CertFault::BadLine { n: 7 }),
    ("up 1 1", "lo 1 2", CertFault::BadLine { n: 6 }),
    ("tail 2 1000 1", "tail 3 1000 1", CertFault::Bounds { n: 7 }),
    ("tail 2 1000 1", "tail 2 1001 1", CertFault::Bounds { n: 7 }),
    ("tail 2 1000 1", "tail 2 0 1", CertFault::Bounds { n: 7 }),
    ("tail 2 1000 1", "tail 2 1000 2", CertFault::Bounds { n: 7 }),
    ("tail 2 1000 1", "tail 2 1000 0", CertFault::Bounds { n: 7 }),
    ("tail 2 1000 1", "tail 2 1000", CertFault::Bounds { n: 7 }),
    (
        "tail 2 1000 1",
        "tail 2 1000 1 1",
        CertFault::BadLine { n: 7 },
    ),
    ("ex 1 1", "ex 2 1", CertFault::Bounds { n: 8 }),
    ("ex 1 1", "ex 1 3", CertFault::Bounds { n: 8 }),
    ("tree\n", "", CertFault::BadLine { n: 10 }),
    ("tree\n", "tree\ntree\n", CertFault::BadLine { n: 11 }),
    // A split leaves a start on either side.
    ("split 1 1", "split 1 2", CertFault::Bounds { n: 11 }),
    ("split 1 1", "split 1 0", CertFault::Bounds { n: 11 }),
    ("split 1 1", "split 3 1", CertFault::Bounds { n: 11 }),
    (
        "split 2 1\ncost",
        "split 1 2\ncost",
        CertFault::Bounds { n: 15 },
    ),
    ("cost 2", "cost 3", CertFault::Bounds { n: 16 }),
    ("excl 1", "excl 2", CertFault::Bounds { n: 13 }),
    ("excl 1", "empty 3", CertFault::Bounds { n: 13 }),
    ("2 over", "3 over", CertFault::Bounds { n: 17 }),
    ("2 over", "2 Over", CertFault::BadLine { n: 17 }),
    ("over\n", "over\n\n", CertFault::BadLine { n: 18 }),
];

/// A part of the text, what stands in its place, and what it comes to then.
const EDITED: [(&str, &str, Audit); 5] = [
    ("", "", Audit::Proved(Bound::Least(-5))),
    // The least risks are worth more than this, and no other number is in range.
    (
        "bound -5",
        "bound -1000000000000000000000000000000000000",
        Audit::Proved(Bound::Least(-1_000_000_000_000_000_000_000_000_000_000_000_000)),
    ),
    (
        "bound -5",
        "bound 1000000000000000000000000000000000000",
        Audit::LeafFails { n: 2 },
    ),
    // List 1 takes 1000 off for each of the 6 that A loads in period 2.
    ("cost 2", "cost 1", Audit::LeafFails { n: 3 }),
    ("cost 2", "empty 1", Audit::LeafFails { n: 3 }),
];

/// What a text comes to with a part of it replaced.
fn audit_edited(
    alloc: Global,
    whole: &str,
    old: &str,
    new: &str,
) -> Result<Result<Audit, CertFault>, Fail> {
    let text = whole.replacen(alloc, old, new, 1)?;
    Ok(audited(alloc, apart(), text.as_bytes())?)
}

fn audits(
    rt: &impl Abort,
    alloc: Global,
    whole: &str,
    edited: &[(&str, &str, Audit)],
) -> Result<(), Fail> {
    for (old, new, want) in edited {
        let audit = audit_edited(alloc, whole, old, new)?;
        assert_eq!(rt; audit, Ok(*want), "{new}");
    }
    Ok(())
}

fn tells(
    rt: &impl Abort,
    alloc: Global,
    whole: &str,
    damaged: &[(&str, &str, CertFault)],
) -> Result<(), Fail> {
    for (old, new, fault) in damaged {
        let audit = audit_edited(alloc, whole, old, new)?;
        assert_eq!(rt; audit, Err(*fault), "{new}");
    }
    Ok(())
}

fn tells_each_cut(rt: &impl Abort, alloc: Global, whole: &[u8]) -> Result<(), Fail> {
    let mut line = 1u64;
    for n in 0..whole.len() {
        let audit = audited(alloc, apart(), &whole[..n])?;
        assert_eq!(rt; audit, Err(CertFault::Cut { n: line }), "{n}");
        if whole[n] == b'\n' {
            line = line.saturating_add(1);
        }
    }
    Ok(())
}

#[test]
fn a_whole_text_is_audited(rt: HostRuntime) -> Result<(), Fail> {
    audits(&rt, rt.alloc(), whole(), &EDITED)
}

#[test]
fn a_cut_text_is_told_by_its_last_line(rt: HostRuntime) -> Result<(), Fail> {
    tells_each_cut(&rt, rt.alloc(), whole().as_bytes())
}

#[test]
fn a_damaged_text_is_told_by_its_first_fault(rt: HostRuntime) -> Result<(), Fail> {
    tells(&rt, rt.alloc(), whole(), &DAMAGED)
}

/// The text of a certificate of sixteen lists, of which the last one alone has a price, with this leaf.
fn sixteen(alloc: Global, leaf: &str) -> Result<String, AllocError> {
    let mut text = String::from_str(alloc, "mpcert 2\nbound 2000000000000000000\nlists 16\n")?;
    for _ in 0..16 {
        text.push_str("prices\n")?;
    }
    text.push_str("ex 1 1 2000000\ntree\n")?;
    text.push_str(leaf)?;
    Ok(text)
}

fn audit_sixteen(alloc: Global, leaf: &str) -> Result<Audit, Fail> {
    let text = sixteen(alloc, leaf)?;
    Ok(audited(alloc, apart(), text.as_bytes())??)
}

#[test]
fn the_last_of_sixteen_lists_counts(rt: HostRuntime) -> Result<(), Fail> {
    let alloc = rt.alloc();
    let bound = Bound::Least(2_000_000_000_000_000_000);
    fails_at(&rt, audit_sixteen(alloc, "cost 15\n")?, 1);
    is_proved(&rt, audit_sixteen(alloc, "cost 16\n")?, bound);
    Ok(())
}

/// What a fault says.
fn says(alloc: Global, fault: CertFault) -> Result<String, Fail> {
    Ok(format!(in alloc; "{fault}")?)
}

fn is_said(rt: &impl Abort, alloc: Global, fault: CertFault, want: &str) -> Result<(), Fail> {
    let told = says(alloc, fault)?;
    assert_eq!(rt; told.as_str(), want);
    Ok(())
}

#[test]
fn faults_are_told_in_words(rt: HostRuntime) -> Result<(), Fail> {
    let alloc = rt.alloc();
    is_said(&rt, alloc, CertFault::Cut { n: 3 }, "line 3 is cut off")?;
    is_said(
        &rt,
        alloc,
        CertFault::BadLine { n: 4 },
        "line 4 may not stand there",
    )?;
    is_said(
        &rt,
        alloc,
        CertFault::Bounds { n: 5 },
        "line 5 has a number out of range",
    )
}
