//! A file read as an instance, whose parts were worked out by hand.
#![tactic(auto, unfolding(instance_model::specs::Tables::in_run))]

ghost use Rattle.std.specs.Prelude.{◌≡◌, ◌<◌};

use crate::instances::samples::{GOOD, PIECES, REORDERED, of_file, slack};
use fixed_num::Steps;
use instance_model::{Exclusion, Instance, Limits};
use instance_read::{StreamFault, read_instance};
use std::alloc::Global;
use std::marker::Brand;
use std::process::Abort;
use std::sync::ledger::{Blank, Ledger};
use std::test::Fail;

/// One period of the run of an allowed start.
struct Running {
    intervention: u32,
    start: u32,
    period: u32,
    /// Of the resource.
    load: i128,
    risks: &'static [i128],
    soft: bool,
}

/// The count of 1.
const ONE: i128 = 1_000_000_000_000;

/// All periods of the runs of all allowed starts of the file.
const RUNNING: [Running; 4] = [
    Running {
        intervention: 0,
        start: 1,
        period: 1,
        load: 2 * ONE,
        risks: &[ONE],
        soft: false,
    },
    Running {
        intervention: 0,
        start: 1,
        period: 2,
        load: -500_000_000_000,
        risks: &[3 * ONE, ONE],
        soft: false,
    },
    Running {
        intervention: 1,
        start: 1,
        period: 1,
        load: 0,
        risks: &[2 * ONE],
        soft: false,
    },
    Running {
        intervention: 1,
        start: 2,
        period: 2,
        load: 0,
        risks: &[ONE, 5 * ONE],
        soft: true,
    },
];

/// An instance has the sizes, names and limits of the file, with the greatest slack.
fn has_parts(rt: &impl Abort, inst: &Instance) {
    assert!(rt; inst.periods() == 2);
    assert!(rt; inst.resources() == 1);
    assert!(rt; inst.seasons() == 1);
    assert!(rt; inst.interventions() == 2);
    assert!(rt; inst.exclusions() == 1);
    assert_eq!(rt;
        (inst.alpha(), inst.quantile(), inst.rounded()),
        (500_000, 950_000, 2)
    );
    assert_eq!(rt; (inst.resource_name(0), inst.season_name(0)), ("c", "s"));
    assert_eq!(rt;
        (inst.name(0), inst.name(1), inst.exclusion_name(0)),
        ("a", "b", "e")
    );
    assert_eq!(rt; (inst.tmax(0), inst.tmax(1)), (1, 2));
    assert_eq!(rt;
        (inst.delta(0, 1), inst.delta(1, 1), inst.delta(1, 2)),
        (2, 1, 1)
    );
    assert_eq!(rt; (inst.scenarios(1), inst.scenarios(2)), (1, 2));
    assert_eq!(rt; (inst.in_season(0, 1), inst.in_season(0, 2)), (false, true));
    assert_eq!(rt;
        (inst.upper(0, 1), inst.upper(0, 2)),
        (3_001_000_000_000, 3_001_000_000_000)
    );
    assert_eq!(rt;
        (inst.lower(0, 1), inst.lower(0, 2)),
        (-1_000_000_000, 249_000_000_000)
    );
    let both = Exclusion {
        first: 0,
        second: 1,
        season: 0,
    };
    assert_eq!(rt; inst.exclusion(0), both);
}

/// An instance has the load and the risks of this period.
fn has_running<L: Ledger>(
    rt: &impl Abort,
    inst: &Instance,
    running: &Running,
    steps: &mut Steps<L>,
) {
    let (i, s, t) = (running.intervention, running.start, running.period);
    assert!(rt; i < inst.interventions() && inst.resources() == 1);
    assert!(rt; 1 <= s && s <= inst.tmax(i) && inst.allowed(i, s));
    assert!(rt; s <= t && t - s < inst.delta(i, s) && t <= inst.periods());
    assert_eq!(rt; inst.load(i, s, 0, t).count(), running.load, "{i} {s} {t}");
    assert_eq!(rt; inst.soft(i, s, t), running.soft, "{i} {s} {t}");
    assert!(rt; running.risks.len() == inst.scenarios(t) as usize);
    for (k, risk) in running.risks.iter().enumerate() {
        let number = inst.risk_cell(i, s, t, k as u32 + 1, steps);
        assert_eq!(rt; number.count(), *risk, "{i} {s} {t} {k}");
    }
}

/// An instance has the loads and risks of all periods, which are read on a new ledger.
fn has_all_running<L: Ledger>(rt: &impl Abort, inst: &Instance, blank: Blank)
    requires name { blank.name ≡ L.name }
    requires parts { blank.parts ≡ L.parts }
    requires some { 0 < blank.parts }
{
    let mut steps: Steps<L> = Steps::zero(blank);
    for running in &RUNNING {
        has_running(rt, inst, running, &mut steps);
    }
}

/// An instance is that of the file.
fn is_good(rt: &impl Abort, inst: &Instance) {
    has_parts(rt, inst);
    has_all_running::<Brand>(rt, inst, Blank::new(1));
}

/// A file of this text is read by pieces of each size as the instance of the file.
fn reads_pieces(rt: &impl Abort, alloc: Global, text: &str) -> Result<(), StreamFault> {
    let limits = Limits::standard();
    for most in PIECES {
        is_good(rt, &of_file(alloc, &limits, text.as_bytes(), most, None)?);
    }
    Ok(())
}

#[test]
fn a_file_is_read_in_pieces_of_each_size_and_in_each_order(rt: HostRuntime) -> Result<(), Fail> {
    let alloc = rt.alloc();
    let limits = Limits::standard();
    for text in [GOOD, REORDERED] {
        is_good(
            &rt,
            &read_instance(alloc, &limits, slack(), text.as_bytes())?,
        );
        reads_pieces(&rt, alloc, text)?;
    }
    Ok(())
}
