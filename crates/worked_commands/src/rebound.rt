//! Runs of `rebound`.

ghost use Rattle.std.specs.Prelude.{◌≤◌};

use crate::samples::{BANDED, STARTLESS, desk, holds};
use command_frame::Source;
use command_rebound::{rebound_files, rebound_files_by};
use instance_model::Limits;
use plan_desk::{DeskCall, MemDesk};
use refined_files::VersionedCertificate;
use std::alloc::Global;
use std::test::Fail;

/// Two interventions that were too much together, in a wider band, in which they fit.
const WIDER: &str = r#"{"Resources":{"c":{"max":[12,12],"min":[0,0]}},"Seasons":{},
"Interventions":{
"I1":{"tmax":2,"Delta":[1,1],
"workload":{"c":{"1":{"1":6},"2":{"2":6}}},
"risk":{"1":{"1":[0]},"2":{"2":[4]}}},
"I2":{"tmax":2,"Delta":[1,1],
"workload":{"c":{"1":{"1":6},"2":{"2":6}}},
"risk":{"1":{"1":[0]},"2":{"2":[2]}}}},
"Exclusions":{},"T":2,"Scenarios_number":[1,1],
"Quantile":1,"Alpha":1}"#;

/// Two splits, and a leaf that says that both are too much together.
const SPLIT: &str =
    "mpcert 1\nbound 2000000000000000000\nlists 0\ntree\nsplit 1 1\nsplit 2 1\nband 1 1 over\ncost 0\ncost 0\n";

/// The same with another bound, of 81 bytes.
const UNBOUNDED: &str =
    "mpcert 1\nbound none\nlists 0\ntree\nsplit 1 1\nsplit 2 1\nband 1 1 over\ncost 0\ncost 0\n";

/// What both become in the narrow band, of 95 bytes.
const NARROW: &str =
    "mpcert 1\nbound 2000000000000000000\nlists 0\ntree\nsplit 1 1\nsplit 2 1\nband 1 1 over\npoint\ncost 0\n";

/// The same in version 3.
const REFINED: &str =
    "mpcert 3\nbound 2000000000000000000\nlists 0\ntree\nsplit 1 1\nsplit 2 1\nband 1 1 over\npoint\ncost 0\n";

/// What they become in the wider one.
const WIDE: &str = "mpcert 1\nbound 0\nlists 0\ntree\nsplit 1 1\nsplit 2 1\npoint\npoint\ncost 0\n";

const NO_START: &str = "mpcert 2\nbound none\nlists 0\ntree\nempty 1\n";

const NARROW_REPORT: &[u8] = b"rebound\nbound 2000000000000000000\nkept 2\nchanged 1\nrounded 0\n";

/// Makes the file O of the files I and C, where certificate files may have so many bytes.
fn rebind(alloc: Global, bytes: u64, desk: &mut MemDesk) -> u8
    requires { bytes ≤ 268_435_456 }
{
    let source = Source {
        instance: "I",
        slack: 0,
    };
    let limits = Limits {
        certificate_bytes: bytes,
        ..Limits::standard()
    };
    rebound_files(alloc, &limits, &source, "C", "O", desk)
}

/// The same to a certificate of version 3.
fn rebind_refined(alloc: Global, bytes: u64, desk: &mut MemDesk) -> u8
    requires { bytes ≤ 268_435_456 }
{
    let source = Source {
        instance: "I",
        slack: 0,
    };
    let limits = Limits {
        certificate_bytes: bytes,
        ..Limits::standard()
    };
    rebound_files_by::<VersionedCertificate, MemDesk>(alloc, &limits, &source, "C", "O", desk)
}

#[test]
fn certificates_become_valid_ones(rt: HostRuntime) -> Result<(), Fail> {
    let alloc = rt.alloc();
    for (instance, certificate, told, text) in [
        (BANDED, SPLIT, NARROW_REPORT, NARROW),
        (
            WIDER,
            SPLIT,
            b"rebound\nbound 0\nkept 1\nchanged 2\nrounded 0\n".as_slice(),
            WIDE,
        ),
        (
            STARTLESS,
            NO_START,
            b"rebound\nbound none\nkept 1\nchanged 0\nrounded 0\n".as_slice(),
            NO_START,
        ),
    ] {
        let mut desk = desk(alloc, instance, "C", certificate)?;
        assert_eq!(rt; rebind(alloc, 268_435_456, &mut desk), 0);
        assert_eq!(rt; desk.spoken(), told);
        assert!(rt; holds(&desk, "O", text.as_bytes()));
        assert!(rt; holds(&desk, "C", certificate.as_bytes()));
    }
    Ok(())
}

#[test]
fn splits_outside_the_interval_are_refused(rt: HostRuntime) -> Result<(), Fail> {
    let alloc = rt.alloc();
    let mut desk = desk(alloc, STARTLESS, "C", SPLIT)?;
    assert_eq!(rt; rebind(alloc, 268_435_456, &mut desk), 5);
    assert_eq!(rt; desk.spoken(), b"refused certificate bounds 5\n".as_slice());
    assert!(rt; desk.file("O").is_none());
    Ok(())
}

#[test]
fn a_text_above_the_limit_is_refused(rt: HostRuntime) -> Result<(), Fail> {
    let alloc = rt.alloc();
    let mut short = desk(alloc, BANDED, "C", UNBOUNDED)?;
    assert_eq!(rt; rebind(alloc, 94, &mut short), 12);
    assert_eq!(rt; short.spoken(), b"refused output too long 4\n".as_slice());
    assert!(rt; short.file("O").is_none());
    let mut fits = desk(alloc, BANDED, "C", UNBOUNDED)?;
    assert_eq!(rt; rebind(alloc, 95, &mut fits), 0);
    assert_eq!(rt; fits.spoken(), NARROW_REPORT);
    assert!(rt; holds(&fits, "O", NARROW.as_bytes()));
    Ok(())
}

#[test]
fn a_text_of_version_three_above_the_limit_is_refused(rt: HostRuntime) -> Result<(), Fail> {
    let alloc = rt.alloc();
    let mut desk = desk(alloc, BANDED, "C", UNBOUNDED)?;
    assert_eq!(rt; rebind_refined(alloc, 94, &mut desk), 12);
    assert_eq!(rt; desk.spoken(), b"refused output too long 4\n".as_slice());
    assert!(rt; desk.file("O").is_none());
    assert_eq!(rt; rebind_refined(alloc, 95, &mut desk), 0);
    assert!(rt; holds(&desk, "O", REFINED.as_bytes()));
    Ok(())
}

#[test]
fn a_write_that_fails_is_told(rt: HostRuntime) -> Result<(), Fail> {
    let alloc = rt.alloc();
    let mut desk = desk(alloc, BANDED, "C", SPLIT)?;
    desk.fail_at(DeskCall::Write, 2)?;
    assert_eq!(rt; rebind(alloc, 268_435_456, &mut desk), 8);
    assert_eq!(rt; desk.spoken(), b"refused write 4\n".as_slice());
    assert!(rt; !holds(&desk, "O", NARROW.as_bytes()));
    Ok(())
}
