//! Runs of `bound`.

ghost use Rattle.std.specs.Prelude.{◌≤◌};

use crate::samples::{EMPTY, desk, holds};
use branch_search::Part;
use command_bound::bound_files;
use command_frame::Source;
use instance_model::Limits;
use plan_desk::MemDesk;
use std::alloc::Global;
use std::test::Fail;

/// The certificate of no intervention at all, of 36 bytes: its one plan has a score of 0. It has no price list, as all of
/// them price as the zeros do.
const POINT: &str = "mpcert 3\nbound 0\nlists 0\ntree\npoint\n";

/// Makes the file O of the file I without a turn, where certificate files may have so many bytes.
fn bound(alloc: Global, bytes: u64, desk: &mut MemDesk) -> u8
    requires { bytes ≤ 268_435_456 }
{
    let source = Source {
        instance: "I",
        slack: 0,
    };
    let limits = Limits {
        certificate_bytes: bytes,
        ..Limits::standard()
    };
    let part = Part::whole();
    bound_files(alloc, &limits, &source, None, None, "O", 0, part, desk)
}

#[test]
fn a_text_above_the_limit_is_refused(rt: HostRuntime) -> Result<(), Fail> {
    let alloc = rt.alloc();
    let mut short = desk(alloc, EMPTY, "O", "old")?;
    assert_eq!(rt; bound(alloc, 35, &mut short), 12);
    assert_eq!(rt; short.spoken(), b"refused output too long 5\n".as_slice());
    assert!(rt; holds(&short, "O", b"old"));
    let mut fits = desk(alloc, EMPTY, "O", "old")?;
    assert_eq!(rt; bound(alloc, 36, &mut fits), 0);
    assert_eq!(rt;
        fits.spoken(),
        b"bound 0\nlists 0\nsplits 0\nkept 0\nchanged 0\nrounded 0\n".as_slice()
    );
    assert!(rt; holds(&fits, "O", POINT.as_bytes()));
    Ok(())
}
