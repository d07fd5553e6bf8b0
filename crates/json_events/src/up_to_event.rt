//! Reading a stream up to the next byte that tells something.

ghost use Rattle.std.specs.Prelude.{◌≡◌, ℕ, ◌+◌, ◌<◌, ◌^◌, ◌≢◌, ◌⊎◌, List, slice_get, Some, IfSome, IsSome, Ok, None};
ghost use Rattle.std.specs.Prelude.{false, length, take, drop, pos, [], ◌∷◌, ◌≤◌};
ghost use Rattle.std.specs.Option.{option_map, option_to_list};
ghost use Rattle.json_grammar.specs.Tree as json;
ghost use Rattle.json_grammar.specs.Events.{event_view};
ghost use Rattle.json_grammar.specs.laws.Machine.{State};
ghost use Rattle.json_machine.specs.Machines.{IsSound, state_of, answer_of};
ghost use Rattle.json_machine.specs.NumberRuns.{TakesNumber, TakesWithEnd};
ghost use Rattle.json_events.specs.NumberKeys.{IsKeyRun, TellsKey};
ghost use Rattle.decimal_numbers.specs.Exact.{fixed};
ghost use Rattle.json_events.specs.Unreads.{unread_of};
ghost use Rattle.json_events.specs.Readings.{HasTold, ReadsOn, Shortens, IsTelling, told_events};
ghost use Rattle.json_events.specs.CountedNumbers.{finishes, TellsCount, TellsCounts};

use crate::counted_number::{CountedNumber, CountedRun, ended_number};
use crate::counted_numbers::{MOST_COUNTS, counted_numbers};
use crate::number_key::{KeyRun, NumberKey, number_key};
use crate::unread::Unread;
use arrayvec::ArrayVec;
use fixed_num::Fixed;
use json_grammar::Event;
use json_machine::{Answer, MOST_LEVELS, Machine, Mode, RawEvent, TakenToken, blank_count};
use std::alloc::{AllocError, Global};

/// What came of reading.
#[derive(Drop)]
pub enum Reading {
    /// Bytes that tell nothing.
    Quiet,
    /// All bytes are used.
    Used,
    One(RawEvent),
    Two(RawEvent, RawEvent),
    /// The next byte cannot follow.
    Refused,
    /// The next byte opens one level too many.
    TooDeep,
}

/// A number that was read by its count, and the event of the bracket behind it, where that was read too.
#[derive(Drop)]
pub struct CountedReading {
    pub number: CountedNumber,
    pub second: Option<Event>,
}

/// A number that was taken by its count, and whether the byte behind it was the bracket that closes the list.
#[derive(Clone, Copy, Drop)]
struct TakenCount {
    run: CountedRun,
    closes: bool,
}

/// Reads up to a byte that tells something, or to the end of the bytes.
pub fn read_up_to_event(
    alloc: Global,
    machine: &mut Machine,
    unread: &mut Unread,
) -> Result<Reading, AllocError>
    requires { IsSound unread.old.at machine.old }
    ensures reads { (stream : List ℕ) (told : List json.Event) → HasTold machine.old unread.old stream told →
        ReadsOn result machine.new unread.new stream told }
    ensures not_quiet { result ≢ Ok Reading.Quiet }
{
    loop {
        match read_run(alloc, machine, unread)? {
            Reading::Quiet => {}
            reading => return Ok(reading),
        }
    }
}

/// Reads blanks or the bytes that only lengthen a token, and what is behind them.
fn read_run(
    alloc: Global,
    machine: &mut Machine,
    unread: &mut Unread,
) -> Result<Reading, AllocError>
    requires { IsSound unread.old.at machine.old }
    ensures reads { (stream : List ℕ) (told : List json.Event) → HasTold machine.old unread.old stream told →
        ReadsOn result machine.new unread.new stream told }
    ensures shortens { Shortens result unread.old unread.new }
    ensures sound { result ≡ Ok Reading.Quiet → IsSound unread.new.at machine.new }
{
    let taken = machine.take_run(unread.as_slice())?;
    unread.pass(taken);
    read_telling(alloc, machine, unread)
}

/// Reads a number with the comma behind it, a key that stands whole, or one byte.
fn read_telling(
    alloc: Global,
    machine: &mut Machine,
    unread: &mut Unread,
) -> Result<Reading, AllocError>
    requires { IsSound unread.old.at machine.old }
    ensures reads { (stream : List ℕ) (told : List json.Event) → HasTold machine.old unread.old stream told →
        ReadsOn result machine.new unread.new stream told }
    ensures shortens { Shortens result unread.old unread.new }
    ensures sound { result ≡ Ok Reading.Quiet → IsSound unread.new.at machine.new }
{
    let token = machine.take_whole(alloc, unread.at(), unread.as_slice())?;
    if let Some(TakenToken { length, event }) = token {
        unread.pass(length + 1);
        return Ok(Reading::One(event));
    }
    match unread.first() {
        None => Ok(Reading::Used),
        Some(byte) => read_one(alloc, machine, unread, byte),
    }
}

/// Reads the comma behind a value or the colon behind a key, where it is the first byte: it tells nothing.
#[inline]
pub fn read_separator(machine: &mut Machine, unread: &mut Unread)
    requires { IsSound unread.old.at machine.old }
    ensures reads { (stream : List ℕ) (told : List json.Event) → HasTold machine.old unread.old stream told →
        HasTold machine.new unread.new stream told }
{
    let Some(byte) = unread.first() else {
        return;
    };
    if machine.pass_separator(unread.at(), byte) {
        unread.pass(1);
    }
}

/// Reads a number that is told by its count with the comma behind it, or the bracket that closes a list, and the blanks
/// before it. `None`: nothing is read.
#[inline]
pub fn read_counted(machine: &mut Machine, unread: &mut Unread) -> Option<CountedReading>
    ensures tells { IfSome result (λ reading. TellsCount reading.number.at reading.number.count
        (option_to_list (option_map event_view reading.second)) machine.old unread.old machine.new unread.new) }
    ensures left_machine { result ≡ None → machine.new ≡ machine.old }
    ensures left_unread { result ≡ None → unread.new ≡ unread.old }
{
    let bytes = unread.as_slice();
    let blanks = blank_count(bytes);
    let TakenCount { run, closes } = take_counted(machine, &bytes[blanks..])?;
    unread.pass(blanks);
    let at = unread.at();
    unread.pass(run.length + 1);
    let count = Fixed::from(run.size);
    let second = finish_of(closes, at + run.length as u64);
    Some(CountedReading {
        number: CountedNumber { at, count },
        second,
    })
}

/// Reads a key that is a number of few digits, and the blanks before it. `None`: nothing is read.
#[inline]
pub fn read_number_key(machine: &mut Machine, unread: &mut Unread) -> Option<NumberKey>
    ensures tells { IfSome result (λ key.
        TellsKey key.at key.number machine.old unread.old machine.new unread.new) }
    ensures left_machine { result ≡ None → machine.new ≡ machine.old }
    ensures left_unread { result ≡ None → unread.new ≡ unread.old }
{
    let bytes = unread.as_slice();
    let blanks = blank_count(bytes);
    let KeyRun { count, number } = take_number_key(machine, &bytes[blanks..])?;
    unread.pass(blanks);
    let at = unread.at();
    unread.pass(count + 2);
    Some(NumberKey { at, number })
}

/// Takes a key in front that is a number of few digits, where a key may come. `None`: nothing is taken.
#[inline]
fn take_number_key(machine: &mut Machine, bytes: &[u8]) -> Option<KeyRun>
    ensures takes { (k : ℕ) → IfSome result (λ run.
        TakesNumber k (state_of machine.old) bytes.now (1 + run.count)
        (json.key k (k + (run.count + 2)) (take run.count (drop 1 bytes.now))) (state_of machine.new)) }
    ensures run { IfSome result (λ run. IsKeyRun bytes.now run.count run.number) }
    ensures sound { (k i : ℕ) → IsSound k machine.old → IsSome result → IsSound i machine.new }
    ensures waits { IsSome result → (machine.old.mode ≡ Mode.FirstKey) ⊎ (machine.old.mode ≡ Mode.NextKey) }
    ensures left { result ≡ None → machine.new ≡ machine.old }
{
    let run = number_key(bytes)?;
    if !machine.pass_key(bytes, run.count) {
        return None;
    }
    Some(run)
}

/// Takes a number in front that is told by its count, and the comma behind it, where a value may come and the comma
/// too, or the bracket that closes the list. `None`: nothing is taken.
#[inline]
fn take_counted(machine: &mut Machine, bytes: &[u8]) -> Option<TakenCount>
    ensures takes { (k : ℕ) → IfSome result (λ taken.
        TakesWithEnd k (state_of machine.old) bytes.now taken.run.length
        (json.Event.number k (take taken.run.length bytes.now) ∷ finishes taken.closes (k + taken.run.length))
        (state_of machine.new)) }
    ensures within { IfSome result (λ taken. taken.run.length < length bytes.now) }
    ensures exact { IfSome result (λ taken.
        fixed (take taken.run.length bytes.now) ≡ Some (pos taken.run.size, false)) }
    ensures sound { (k i : ℕ) → IsSound k machine.old → IsSome result → IsSound i machine.new }
    ensures waits { IsSome result → (machine.old.mode ≡ Mode.Want) ⊎ (machine.old.mode ≡ Mode.First) }
    ensures left { result ≡ None → machine.new ≡ machine.old }
{
    let run = ended_number(bytes)?;
    if bytes[run.length] == b',' {
        if !machine.pass_number(bytes, run.length) {
            return None;
        }
        return Some(TakenCount { run, closes: false });
    }
    if !machine.awaits_item() {
        return None;
    }
    machine.pass_last();
    Some(TakenCount { run, closes: true })
}

/// The event of a bracket, where it closes what is open.
#[inline]
fn finish_of(closes: bool, at: u64) -> Option<Event>
    ensures { option_to_list (option_map event_view result) ≡ finishes closes at }
{
    if closes {
        Some(Event::Finish { at })
    } else {
        None
    }
}

/// Reads numbers of a list, at most so many, that are told by their counts, each with the blanks before it and the
/// comma behind it.
#[inline]
pub fn read_counts(
    machine: &mut Machine,
    unread: &mut Unread,
    most: usize,
    counts: &mut ArrayVec<i64, MOST_COUNTS>,
)
    requires { counts.old.items ≡ [] }
    ensures tells { TellsCounts counts.new.items machine.old unread.old machine.new unread.new }
    ensures few { length counts.new.items ≤ most }
{
    if !machine.awaits_item() {
        return;
    }
    let used = counted_numbers(unread.as_slice(), most, counts);
    if counts.is_empty() {
        return;
    }
    machine.pass_items();
    unread.pass(used);
}

/// Reads one byte, the first of the buffer: mostly one between tokens, which tells nothing.
fn read_one(
    alloc: Global,
    machine: &mut Machine,
    unread: &mut Unread,
    byte: u8,
) -> Result<Reading, AllocError>
    requires sound { IsSound unread.old.at machine.old }
    requires first { slice_get (unread_of unread.old) 0 ≡ Some byte }
    requires room { unread.old.at + 1 < 2 ^ 64 }
    ensures reads { (stream : List ℕ) (told : List json.Event) → HasTold machine.old unread.old stream told →
        ReadsOn result machine.new unread.new stream told }
    ensures shortens { Shortens result unread.old unread.new }
    ensures sound { result ≡ Ok Reading.Quiet → IsSound unread.new.at machine.new }
{
    if machine.pass_between(unread.at(), byte) {
        unread.pass(1);
        return Ok(Reading::Quiet);
    }
    read_byte(alloc, machine, unread, byte)
}

/// The same by a step of the machine.
fn read_byte(
    alloc: Global,
    machine: &mut Machine,
    unread: &mut Unread,
    byte: u8,
) -> Result<Reading, AllocError>
    requires sound { IsSound unread.old.at machine.old }
    requires first { slice_get (unread_of unread.old) 0 ≡ Some byte }
    requires room { unread.old.at + 1 < 2 ^ 64 }
    ensures reads { (stream : List ℕ) (told : List json.Event) → HasTold machine.old unread.old stream told →
        ReadsOn result machine.new unread.new stream told }
    ensures shortens { Shortens result unread.old unread.new }
    ensures sound { result ≡ Ok Reading.Quiet → IsSound unread.new.at machine.new }
{
    let answer = machine.step(alloc, unread.at(), byte)?;
    let Some(reading) = reading_of(answer) else {
        return Ok(Reading::Refused);
    };
    if machine.depth() > MOST_LEVELS {
        return Ok(Reading::TooDeep);
    }
    unread.pass(1);
    Ok(reading)
}

/// What was told; `None` where the byte was refused.
fn reading_of(answer: Answer) -> Option<Reading>
    ensures told { (s : State) → answer_of answer s ≡ option_map (λ r. (s, told_events r)) result }
    ensures telling { IfSome result (λ r. IsTelling r) }
{
    match answer {
        Answer::Refused => None,
        Answer::Quiet => Some(Reading::Quiet),
        Answer::One(event) => Some(Reading::One(event)),
        Answer::Two(first, second) => Some(Reading::Two(first, second)),
    }
}
