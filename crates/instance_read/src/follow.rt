//! Following the events of a text.

ghost use Rattle.std.specs.Prelude.{◌≡◌, ◌≢◌, ◌∷◌, [], ◌++◌, ℕ, List, Ok, Some, None, IfOk, OnOk};
ghost use Rattle.json_grammar.specs.Tree as json;
ghost use Rattle.json_grammar.specs.Events.{event_view};
ghost use Rattle.json_events.specs.Pulls.{IsUnfinished};
ghost use Rattle.instance_model.specs.declared.limits.Limits.{Limits as Sizes};
ghost use Rattle.shape_walk.specs.Awaits.{AwaitsCount};
ghost use Rattle.instance_read.specs.Readers.{HaveTaken, Follows, Ends, IsFollowing};

use crate::keeper::Keeper;
use arrayvec::ArrayVec;
use instance_shape::Spot;
use json_events::{MOST_COUNTS, Pull, Pulled};
use json_grammar::{Event, TextFault};
use shape_walk::{Read, ShapeWalk};
use std::alloc::AllocError;

/// Takes the next event of a text. It is kept as long as there is no fault of shape.
pub fn take_event(walk: &mut ShapeWalk, keeper: &mut Keeper, event: Event) -> Result<(), AllocError>
    ensures { (limits : Sizes) (es : List json.Event) → HaveTaken limits walk.old keeper.old es
        → OnOk result (HaveTaken limits walk.new keeper.new (es ++ event_view event ∷ [])) }
{
    let taken = walk.take(&event)?;
    if walk.fault().is_some() {
        return Ok(());
    }
    keeper.take(taken.spot, event, &taken.read)
}

/// Takes a run of the numbers that come next at a spot where counts are awaited, within the limits. Tells whether there
/// were any.
fn take_run(
    pull: &mut Pull,
    walk: &mut ShapeWalk,
    keeper: &mut Keeper,
    spot: Spot,
    counts: &mut ArrayVec<i64, MOST_COUNTS>,
) -> Result<bool, AllocError>
    requires unfinished { IsUnfinished pull.old }
    requires awaits { AwaitsCount walk.old spot }
    ensures follows { (limits : Sizes) (bytes : List ℕ) → IsFollowing limits pull.old walk.old keeper.old bytes
        → OnOk result (IsFollowing limits pull.new walk.new keeper.new bytes) }
    ensures unfinished { IsUnfinished pull.new }
    ensures awaits { OnOk result (AwaitsCount walk.new spot) }
{
    let most = walk.count_room(spot).min(MOST_COUNTS as u64) as usize;
    pull.next_counts(most, counts);
    if counts.is_empty() {
        return Ok(false);
    }
    keeper.take_counts(spot, counts.as_slice())?;
    walk.take_counts(spot, counts.len() as u64);
    Ok(true)
}

/// Takes the numbers that come next at such a spot, as long as they are told many at once.
fn take_runs(
    pull: &mut Pull,
    walk: &mut ShapeWalk,
    keeper: &mut Keeper,
    spot: Spot,
    counts: &mut ArrayVec<i64, MOST_COUNTS>,
) -> Result<(), AllocError>
    requires unfinished { IsUnfinished pull.old }
    requires awaits { AwaitsCount walk.old spot }
    ensures follows { (limits : Sizes) (bytes : List ℕ) → IsFollowing limits pull.old walk.old keeper.old bytes
        → OnOk result (IsFollowing limits pull.new walk.new keeper.new bytes) }
    ensures unfinished { IsUnfinished pull.new }
    ensures awaits { OnOk result (AwaitsCount walk.new spot) }
{
    'runs: for _ in 0..u64::MAX {
        if !take_run(pull, walk, keeper, spot, counts)? {
            return Ok(());
        }
    }
    Ok(())
}

/// Takes the numbers that come next, as long as they are told by their counts and stand where counts are awaited: the
/// way of most of the numbers of a file, without an event. They are taken many at once, and one by one where that ends.
fn take_counts(
    pull: &mut Pull,
    walk: &mut ShapeWalk,
    keeper: &mut Keeper,
    counts: &mut ArrayVec<i64, MOST_COUNTS>,
) -> Result<(), AllocError>
    requires { IsUnfinished pull.old }
    ensures follows { (limits : Sizes) (bytes : List ℕ) → IsFollowing limits pull.old walk.old keeper.old bytes
        → OnOk result (IsFollowing limits pull.new walk.new keeper.new bytes) }
    ensures unfinished { IsUnfinished pull.new }
{
    let Some(spot) = walk.awaits_count() else {
        return Ok(());
    };
    take_runs(pull, walk, keeper, spot, counts)?;
    'counts: for _ in 0..u64::MAX {
        let Some(number) = pull.next_counted() else {
            return Ok(());
        };
        keeper.take_count(spot, number.count)?;
        if !walk.take_count(number.at, spot) {
            return Ok(());
        }
    }
    Ok(())
}

/// Takes the key that comes next, where a period or start is awaited and it is told by its number: the way of most of
/// these keys, without an event. Tells whether there was one. It is kept as long as there is no fault of shape.
fn take_number_key(
    pull: &mut Pull,
    walk: &mut ShapeWalk,
    keeper: &mut Keeper,
) -> Result<bool, AllocError>
    requires { IsUnfinished pull.old }
    ensures follows { (limits : Sizes) (bytes : List ℕ) → IsFollowing limits pull.old walk.old keeper.old bytes
        → OnOk result (IsFollowing limits pull.new walk.new keeper.new bytes) }
    ensures unfinished { IsUnfinished pull.new }
{
    if !walk.awaits_number_key() {
        return Ok(false);
    }
    let Some(key) = pull.next_number_key() else {
        return Ok(false);
    };
    let taken = walk.take_number_key(key.at, key.number)?;
    if walk.fault().is_some() {
        return Ok(true);
    }
    if let Read::Whole(number) = taken.read {
        keeper.take_number_key(taken.spot, number)?;
    }
    Ok(true)
}

/// Takes what comes next as far as it is told without an event: numbers, and a key behind them. Tells whether there was
/// a key.
#[inline]
fn take_told(
    pull: &mut Pull,
    walk: &mut ShapeWalk,
    keeper: &mut Keeper,
    counts: &mut ArrayVec<i64, MOST_COUNTS>,
) -> Result<bool, AllocError>
    requires { IsUnfinished pull.old }
    ensures follows { (limits : Sizes) (bytes : List ℕ) → IsFollowing limits pull.old walk.old keeper.old bytes
        → OnOk result (IsFollowing limits pull.new walk.new keeper.new bytes) }
    ensures unfinished { IsUnfinished pull.new }
{
    pull.pass_separator();
    take_counts(pull, walk, keeper, counts)?;
    take_number_key(pull, walk, keeper)
}

/// Takes the events that the bytes tell that have come, up to a fault of the text.
pub fn take_events(
    pull: &mut Pull,
    walk: &mut ShapeWalk,
    keeper: &mut Keeper,
) -> Result<Option<TextFault>, AllocError>
    requires { IsUnfinished pull.old }
    ensures follows { (limits : Sizes) (bytes : List ℕ) → IsFollowing limits pull.old walk.old keeper.old bytes
        → IfOk result (λ fault. Follows fault limits pull.new walk.new keeper.new bytes) }
    ensures unfinished { IsUnfinished pull.new }
{
    let mut counts = ArrayVec::new();
    'events: for _ in 0..u64::MAX {
        if take_told(pull, walk, keeper, &mut counts)? {
            continue;
        }
        match pull.next_event() {
            Ok(Pulled::Event(event)) => take_event(walk, keeper, event)?,
            Ok(Pulled::More) => return Ok(None),
            Ok(Pulled::Done) => unreachable!(),
            Err(fault) => return told(fault),
        }
    }
    Err(AllocError)
}

/// Takes the events that are left once all bytes have come, up to a fault of the text.
pub fn finish_events(
    pull: &mut Pull,
    walk: &mut ShapeWalk,
    keeper: &mut Keeper,
) -> Result<Option<TextFault>, AllocError>
    ensures { (limits : Sizes) (bytes : List ℕ) → IsFollowing limits pull.old walk.old keeper.old bytes
        → IfOk result (λ fault. Ends fault limits walk.new keeper.new bytes) }
{
    'events: for _ in 0..u64::MAX {
        match pull.finish() {
            Ok(Pulled::Event(event)) => take_event(walk, keeper, event)?,
            Ok(Pulled::Done) => return Ok(None),
            Ok(Pulled::More) => unreachable!(),
            Err(fault) => return told(fault),
        }
    }
    Err(AllocError)
}

/// A fault that says something about the text, or else want of memory.
fn told(fault: TextFault) -> Result<Option<TextFault>, AllocError>
    ensures same { IfOk result (λ told. told ≡ Some fault) }
    ensures not_memory { OnOk result (fault ≢ TextFault.Memory) }
{
    match fault {
        TextFault::Memory => Err(AllocError),
        TextFault::Syntax { .. } | TextFault::TooDeep { .. } => Ok(Some(fault)),
    }
}
