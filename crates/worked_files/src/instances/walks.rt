//! The shape followed over the events of small texts, with faults and spots worked out by hand.

ghost use Rattle.json_events.specs.Pulls.{IsUnfinished};

use fixed_num::Fixed;
use instance_model::Limits;
use instance_shape::{Fault, Flaw, Known, Spot, Which};
use json_events::{Pull, Pulled};
use json_grammar::{Event, TextFault};
use shape_walk::{Read, ShapeWalk};
use std::alloc::{AllocError, Global};
use std::test::Fail;

/// A text without a fault that has each kind of value once.
const GOOD: &[u8] =
    b"{\"Resources\":{\"c1\":{\"max\":[10],\"min\":[0]}},\"Seasons\":{\"winter\":[\"1\"]},\
        \"Interventions\":{\"I1\":{\"tmax\":\"2\",\"Delta\":[3,3],\"workload\":{\"c1\":{\"04\":{\"5\":5.5}}},\
        \"risk\":{\"6\":{\"7\":[2.5]}}}},\"Exclusions\":{\"E1\":[\"I1\",\"I2\",\"winter\"]},\"T\":8,\
        \"Scenarios_number\":[9],\"Quantile\":0.95,\"Alpha\":0.5,\"note\":[null,true]}";

/// Takes one event more, and adds what is told of it.
fn tell(
    walk: &mut ShapeWalk,
    told: &mut Vec<(Spot, Read)>,
    event: Event,
) -> Result<(), AllocError> {
    let taken = walk.take(&event)?;
    told.push((taken.spot, taken.read))?;
    Ok(())
}

/// Takes the events that are due, and adds what is told of each.
fn follow(
    walk: &mut ShapeWalk,
    told: &mut Vec<(Spot, Read)>,
    pull: &mut Pull,
) -> Result<(), TextFault>
    requires { IsUnfinished pull.old }
{
    for _ in 0..200 {
        match pull.next_event()? {
            Pulled::Event(event) => tell(walk, told, event)?,
            Pulled::More | Pulled::Done => return Ok(()),
        }
    }
    Ok(())
}

/// Takes the events that bytes tell, and adds what is told of each.
fn follow_bytes(
    alloc: Global,
    walk: &mut ShapeWalk,
    told: &mut Vec<(Spot, Read)>,
    bytes: &[u8],
) -> Result<(), TextFault> {
    let mut pull = Pull::make(alloc)?;
    pull.push(bytes)?;
    follow(walk, told, &mut pull)
}

/// A walk over the events that the first bytes of a text tell.
fn walk_along(alloc: Global, limits: &Limits, bytes: &[u8]) -> Result<ShapeWalk, TextFault> {
    let mut walk = ShapeWalk::make(alloc, limits);
    let mut told = Vec::new(alloc);
    follow_bytes(alloc, &mut walk, &mut told, bytes)?;
    Ok(walk)
}

/// What is told of the events of a text.
fn told_along(alloc: Global, bytes: &[u8]) -> Result<Vec<(Spot, Read)>, TextFault> {
    let mut walk = ShapeWalk::make(alloc, &Limits::standard());
    let mut told = Vec::new(alloc);
    follow_bytes(alloc, &mut walk, &mut told, bytes)?;
    Ok(told)
}

/// The first fault along a text.
fn fault_along(alloc: Global, limits: &Limits, bytes: &[u8]) -> Result<Option<Fault>, TextFault> {
    Ok(walk_along(alloc, limits, bytes)?.fault())
}

fn fault(at: u64, flaw: Flaw) -> Option<Fault> {
    Some(Fault { at, flaw })
}

#[test]
fn first_faults(rt: HostRuntime) -> Result<(), Fail> {
    let mut limits = Limits::standard();
    limits.resources = 1;
    limits.risk_cells = 1;
    let table: [(&[u8], Option<Fault>); 15] = [
        (GOOD, None),
        (b"[]", fault(0, Flaw::Shape)),
        (b"{\"x\":1,\"x\":2}", fault(7, Flaw::Double)),
        (
            b"{\"Resources\":{\"\":{\"max\":0}}}",
            fault(14, Flaw::BadName),
        ),
        (
            b"{\"Resources\":{\"c\":{\"max\":[1]}}}",
            fault(28, Flaw::Missing(Known::Min)),
        ),
        (
            b"{\"Resources\":{\"a\":{\"max\":[],\"min\":[]},\"b\":0}}",
            fault(38, Flaw::Limit(Which::Resources)),
        ),
        (
            b"{\"Interventions\":{\"I\":{\"risk\":{\"1\":{},\"01\":{}}}}}",
            fault(38, Flaw::Double),
        ),
        (
            b"{\"Interventions\":{\"I\":{\"risk\":{\"1\":{\"1\":[1e8]}}}}}",
            fault(41, Flaw::TooLarge),
        ),
        (
            b"{\"Interventions\":{\"I\":{\"risk\":{\"1\":{\"1\":[1,2]}}}}}",
            fault(43, Flaw::Limit(Which::RiskCells)),
        ),
        (
            b"{\"Exclusions\":{\"E\":[\"a\",\"b\"]}}",
            fault(27, Flaw::Shape),
        ),
        (
            b"{\"Exclusions\":{\"E\":[\"a\",\"b\",\"c\",\"d\"]}}",
            fault(32, Flaw::Shape),
        ),
        (b"{\"T\":513}", fault(5, Flaw::Limit(Which::Periods))),
        (b"{\"T\":0,\"T\":1}", fault(5, Flaw::Limit(Which::Periods))),
        (b"{\"T\":\"1.5\"}", fault(5, Flaw::Shape)),
        (b"{\"Quantile\":0}", fault(12, Flaw::Shape)),
    ];
    for (text, want) in table {
        assert_eq!(rt; fault_along(rt.alloc(), &limits, text)?, want);
    }
    Ok(())
}

/// A count of 10^-12.
fn count(number: i128) -> Read {
    let count = Fixed::from_count(number).unwrap_or(Fixed::zero());
    Read::Count {
        count,
        rounded: false,
    }
}

#[test]
fn what_is_read(rt: HostRuntime) -> Result<(), Fail> {
    let want = [
        (Spot::BandLimit, count(10_000_000_000_000)),
        (Spot::BandLimit, count(0)),
        (Spot::SeasonPeriod, Read::Whole(1)),
        (Spot::Tmax, Read::Whole(2)),
        (Spot::Duration, Read::Whole(3)),
        (Spot::Duration, Read::Whole(3)),
        (Spot::WorkloadResource, Read::Whole(4)),
        (Spot::WorkloadPeriod, Read::Whole(5)),
        (Spot::WorkloadNumber, count(5_500_000_000_000)),
        (Spot::Risk, Read::Whole(6)),
        (Spot::RiskPeriod, Read::Whole(7)),
        (Spot::RiskNumber, count(2_500_000_000_000)),
        (Spot::T, Read::Whole(8)),
        (Spot::Scenario, Read::Whole(9)),
        (Spot::Quantile, Read::Millionths(950_000)),
        (Spot::Alpha, Read::Millionths(500_000)),
    ];
    let told = told_along(rt.alloc(), GOOD)?;
    let mut read = Vec::new(rt.alloc());
    for (spot, one) in &told {
        if *one != Read::Nothing {
            read.push((*spot, *one))?;
        }
    }
    assert_eq!(rt; read.as_slice(), want.as_slice());
    Ok(())
}

#[test]
fn spots_of_all_events(rt: HostRuntime) -> Result<(), Fail> {
    let text = b"{\"Exclusions\":{\"E\":[\"a\",\"b\",\"w\"]},\"x\":[1]}";
    let want = [
        Spot::Root,
        // a key stands at the spot of its object
        Spot::Root,
        Spot::Exclusions,
        Spot::Exclusions,
        Spot::Exclusion,
        Spot::Word,
        Spot::Word,
        Spot::Word,
        // so does a closing bracket or brace
        Spot::Exclusion,
        Spot::Exclusions,
        Spot::Root,
        Spot::Skipped,
        Spot::Skipped,
        Spot::Skipped,
        Spot::Root,
    ];
    let told = told_along(rt.alloc(), text)?;
    let mut spots = Vec::new(rt.alloc());
    for (spot, _) in &told {
        spots.push(*spot)?;
    }
    assert_eq!(rt; spots.as_slice(), want.as_slice());
    Ok(())
}

#[test]
fn where_counts_are_awaited(rt: HostRuntime) -> Result<(), Fail> {
    let table: [(&[u8], Option<Spot>); 6] = [
        (b"{\"Resources\":{\"c\":{\"max\":[", Some(Spot::BandLimit)),
        (
            b"{\"Interventions\":{\"I\":{\"workload\":{\"c\":{\"1\":{\"1\":",
            Some(Spot::WorkloadNumber),
        ),
        (
            b"{\"Interventions\":{\"I\":{\"risk\":{\"1\":{\"1\":[",
            Some(Spot::RiskNumber),
        ),
        (b"{\"Interventions\":{\"I\":{\"risk\":{\"1\":{", None),
        (b"{\"T\":", None),
        // behind a fault
        (b"{\"T\":0,\"Resources\":{\"c\":{\"max\":[", None),
    ];
    for (bytes, want) in table {
        let walk = walk_along(rt.alloc(), &Limits::standard(), bytes)?;
        assert_eq!(rt; walk.awaits_count(), want);
    }
    Ok(())
}

/// Takes a count, where one is awaited.
fn take_awaited(walk: &mut ShapeWalk, at: u64) {
    if let Some(spot) = walk.awaits_count() {
        walk.take_count(at, spot);
    }
}

#[test]
fn counts_are_taken_up_to_their_limit(rt: HostRuntime) -> Result<(), Fail> {
    let mut limits = Limits::standard();
    limits.risk_cells = 1;
    let bytes = b"{\"Interventions\":{\"I\":{\"risk\":{\"1\":{\"1\":[";
    let mut walk = walk_along(rt.alloc(), &limits, bytes)?;
    take_awaited(&mut walk, 41);
    assert_eq!(rt; walk.fault(), None);
    take_awaited(&mut walk, 43);
    assert_eq!(rt; walk.fault(), fault(43, Flaw::Limit(Which::RiskCells)));
    assert_eq!(rt; walk.awaits_count(), None);
    Ok(())
}

/// Takes as many counts as there is room for, at once, where counts are awaited.
fn take_all_awaited(walk: &mut ShapeWalk) {
    if let Some(spot) = walk.awaits_count() {
        let room = walk.count_room(spot);
        walk.take_counts(spot, room);
    }
}

#[test]
fn counts_are_taken_at_once_up_to_their_limit(rt: HostRuntime) -> Result<(), Fail> {
    let mut limits = Limits::standard();
    limits.risk_cells = 5;
    let bytes = b"{\"Interventions\":{\"I\":{\"risk\":{\"1\":{\"1\":[7,";
    let mut walk = walk_along(rt.alloc(), &limits, bytes)?;
    assert_eq!(rt; walk.count_room(Spot::RiskNumber), 4);
    take_all_awaited(&mut walk);
    assert_eq!(rt; walk.fault(), None);
    assert_eq!(rt; walk.count_room(Spot::RiskNumber), 0);
    take_awaited(&mut walk, 51);
    assert_eq!(rt; walk.fault(), fault(51, Flaw::Limit(Which::RiskCells)));
    Ok(())
}

#[test]
fn where_number_keys_are_awaited(rt: HostRuntime) -> Result<(), Fail> {
    let table: [(&[u8], bool); 8] = [
        (b"{\"Interventions\":{\"I\":{\"workload\":{\"c\":{", true),
        (
            b"{\"Interventions\":{\"I\":{\"workload\":{\"c\":{\"1\":{\"1\":7,",
            true,
        ),
        (b"{\"Interventions\":{\"I\":{\"risk\":{", true),
        (b"{\"Interventions\":{\"I\":{\"risk\":{\"1\":{", true),
        (
            b"{\"Interventions\":{\"I\":{\"risk\":{\"1\":{\"1\":[",
            false,
        ),
        (b"{\"Interventions\":{\"I\":{\"workload\":{", false),
        (b"", false),
        // behind a fault
        (b"{\"T\":0,\"Interventions\":{\"I\":{\"risk\":{", false),
    ];
    for (bytes, want) in table {
        let walk = walk_along(rt.alloc(), &Limits::standard(), bytes)?;
        assert_eq!(rt; walk.awaits_number_key(), want);
    }
    Ok(())
}

/// What a walk reads of a key that writes a number, where one is awaited.
fn read_awaited_key(walk: &mut ShapeWalk, at: u64, number: u32) -> Result<Read, AllocError> {
    if !walk.awaits_number_key() {
        return Ok(Read::Nothing);
    }
    let taken = walk.take_number_key(at, number)?;
    Ok(taken.read)
}

#[test]
fn number_keys_are_taken_once(rt: HostRuntime) -> Result<(), Fail> {
    let bytes = b"{\"Interventions\":{\"I\":{\"workload\":{\"c\":{\"1\":{\"007\":7,";
    let mut walk = walk_along(rt.alloc(), &Limits::standard(), bytes)?;
    assert_eq!(rt; read_awaited_key(&mut walk, 52, 8)?, Read::Whole(8));
    assert_eq!(rt; walk.fault(), None);
    assert_eq!(rt; walk.awaits_count(), Some(Spot::WorkloadNumber));
    assert_eq!(rt; read_awaited_key(&mut walk, 58, 7)?, Read::Whole(7));
    assert_eq!(rt; walk.fault(), fault(58, Flaw::Double));
    assert!(rt; !walk.awaits_number_key());
    Ok(())
}
