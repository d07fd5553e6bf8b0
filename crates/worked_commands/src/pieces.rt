//! Files that are read in pieces of a few bytes.

use crate::samples::{BANDED, desk};
use command_check::check_files;
use command_evaluate::evaluate_files;
use command_frame::Source;
use std::test::Fail;

/// Two splits, and a leaf that says that both are too much together.
const CERTIFICATE: &str =
    "mpcert 1\nbound 2000000000000000000\nlists 0\ntree\nsplit 1 1\nsplit 2 1\nband 1 1 over\ncost 0\ncost 0\n";

const FEASIBLE: &str = "feasible\nscore 2000000000000000000\ncost 1.000000000000 1.000000000000\n\
        mean 1.000000000000 1.000000000000\nexcess 0.000000000000 0.000000000000\nrounded 0\n";

const ACCEPTED: &str =
    "accepted\nbound 2000000000000000000\nbound-cost 1.000000000000\nscore 2000000000000000000\ngap 0\nrounded 0\n";

#[test]
fn pieces_of_each_size_are_judged_alike(rt: HostRuntime) -> Result<(), Fail> {
    let alloc = rt.alloc();
    let source = Source {
        instance: "I",
        slack: 0,
    };
    for most in [1usize, 7, 4096] {
        let mut desk = desk(alloc, BANDED, "P", "I1 1\nI2 2\n")?;
        desk.put_file("C", CERTIFICATE.as_bytes())?;
        desk.read_by(most);
        assert_eq!(rt; evaluate_files(alloc, &source, "P", &mut desk), 0, "{most}");
        assert_eq!(rt; desk.spoken(), FEASIBLE.as_bytes(), "{most}");
        assert_eq!(rt;
            check_files(alloc, &source, Some("P"), "C", &mut desk),
            0,
            "{most}"
        );
        assert!(rt; desk.spoken().ends_with(ACCEPTED.as_bytes()), "{most}");
    }
    Ok(())
}
