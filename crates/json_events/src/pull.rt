//! A reader that is handed a text in pieces, and tells its events.

ghost use Rattle.std.specs.Prelude.{◌≡◌, ◌≢◌, ℕ, ◌+◌, ◌<◌, List, [], ◌++◌, length, slice_get, Bool, true, false, Some};
ghost use Rattle.std.specs.Prelude.{Ok, Err, IfOk, OnOk, OnErr, IfSome, IsSome, None, IsTrue, ◌≤◌};
ghost use Rattle.json_grammar.specs.Tree as json;
ghost use Rattle.json_grammar.specs.Grammar.{IsText};
ghost use Rattle.json_grammar.specs.Events.{event_view};
ghost use Rattle.json_grammar.specs.Prefix.{IsSyntaxFault, IsShallow, IsDepthFault};
ghost use Rattle.json_grammar.specs.Stream.{IsShallowPrefix, IsNextDue, IsDueCount, IsNextOfEach, IsGivenText};
ghost use Rattle.json_events.specs.Pulls.{Stands, IsUnfinished, given_after, finished_after};
ghost use Rattle.json_events.specs.Steps.{Steps, IsIdle, IsUsedUp, Concludes};
ghost use Rattle.json_events.specs.Counts.{IsNextCount, AreNextCounts, IsNextNumberKey};

use crate::counted_number::CountedNumber;
use crate::counted_numbers::MOST_COUNTS;
use crate::number_key::NumberKey;
use crate::sound_event::sound_event;
use crate::unread::Unread;
use crate::up_to_event::{
    CountedReading, Reading, read_counted, read_counts, read_number_key, read_separator,
    read_up_to_event,
};
use arrayvec::ArrayVec;
use json_grammar::{Event, TextFault};
use json_machine::Machine;
use std::alloc::{AllocError, Global};
use std::marker::Model;

/// What a call tells of the text.
#[derive(Drop)]
pub enum Pulled {
    /// The next event.
    Event(Event),
    /// The bytes that have come tell no further event.
    More,
    /// The text has ended.
    Done,
}

/// Where a reader is.
#[derive(Clone, Copy, Drop)]
enum Stage {
    Reading,
    Faulty(TextFault),
    /// At the end of the text.
    Over,
}

/// How a reader went on.
#[derive(Drop)]
enum Step {
    Event(Event),
    Fault(TextFault),
    /// All bytes that have come are used.
    Used,
    /// The text has ended.
    Over,
}

/// A reader of one JSON text that is pushed to it in pieces. It keeps the bytes that it hasn't used yet, those of the
/// token that it is in, and one event at most.
///
/// An event is due as soon as its last byte is there, a number with the byte behind it, as long as the bytes up to
/// there begin a JSON text nested at most 16 deep. Due events are told first, each once and in order.
#[derive(Drop)]
pub struct Pull {
    alloc: Global,
    machine: Machine,
    unread: Unread,
    held: Option<Event>,
    stage: Stage,
    finished: bool,
}

impl Model for Pull {
    ghost use Rattle.json_events.specs.PullViews.{PullView};

    ghost Value = { PullView };

    ghost use Rattle.json_events.specs.Pulls.{view_of, StandsForSome};

    ghost view = { view_of };

    ghost invariant = { StandsForSome };
}

impl Pull {
    /// A reader to which nothing was pushed.
    pub fn make(alloc: Global) -> Result<Pull, AllocError>
        ensures stands { IfOk result (λ pull. Stands pull [] 0 false) }
        ensures unfinished { IfOk result (λ pull. IsUnfinished pull) }
    {
        Ok(Pull {
            alloc,
            machine: Machine::new(alloc),
            unread: Unread::new(alloc),
            held: None,
            stage: Stage::Reading,
            finished: false,
        })
    }

    /// Adds a piece to the stream. It is refused where memory is wanting, or the stream would have 2^63 bytes.
    pub fn push(&mut self, piece: &[u8]) -> Result<(), AllocError>
        requires { IsUnfinished self.old }
        ensures pushed { (stream : List ℕ) (given : ℕ) → Stands self.old stream given false →
            OnOk result (Stands self.new (stream ++ piece.now) given false) }
        ensures refused { (stream : List ℕ) (given : ℕ) → Stands self.old stream given false →
            OnErr result (Stands self.new stream given false) }
        ensures unfinished { IsUnfinished self.new }
    {
        match self.stage {
            Stage::Reading => self.unread.append(piece),
            Stage::Faulty(_) | Stage::Over => Ok(()),
        }
    }

    /// The next event that is due, or `More` where the bytes that were pushed tell no further one; never `Done`.
    ///
    /// # Errors
    ///
    /// `Syntax` and `TooDeep` as by `read_tree`, where `at` is less than the number of bytes that were pushed, behind
    /// all events that are due. A fault at the present end is `More`: further bytes may mend it. Each further call
    /// answers the same fault, however many bytes are pushed. `Memory` may come in place of any answer; then nothing
    /// has changed, and the call may be made again.
    pub fn next_event(&mut self) -> Result<Pulled, TextFault>
        requires { IsUnfinished self.old }
        ensures stands { (stream : List ℕ) (given : ℕ) → Stands self.old stream given false →
            Stands self.new stream (given_after result given) false }
        ensures unfinished { IsUnfinished self.new }
        ensures due { (stream : List ℕ) (given : ℕ) (e : Event) → Stands self.old stream given false →
            result ≡ Ok (Pulled.Event e) → IsNextDue stream false given (event_view e) }
        // whatever is pushed later
        ensures next { (stream : List ℕ) (given : ℕ) (e : Event) → Stands self.old stream given false →
            result ≡ Ok (Pulled.Event e) → IsNextOfEach stream given (event_view e) }
        ensures more { (stream : List ℕ) (given : ℕ) → Stands self.old stream given false →
            result ≡ Ok Pulled.More → IsDueCount stream false given }
        // no fault lies before the end
        ensures no_fault { (stream : List ℕ) (given : ℕ) → Stands self.old stream given false →
            result ≡ Ok Pulled.More → IsShallowPrefix stream }
        ensures not_done { result ≢ Ok Pulled.Done }
        ensures syntax { (stream : List ℕ) (given at : ℕ) → Stands self.old stream given false →
            result ≡ Err (TextFault.Syntax at) → IsSyntaxFault stream at × (at < length stream) }
        ensures first { (stream : List ℕ) (given at : ℕ) → Stands self.old stream given false →
            result ≡ Err (TextFault.Syntax at) → IsShallow stream at }
        ensures too_deep { (stream : List ℕ) (given at : ℕ) → Stands self.old stream given false →
            result ≡ Err (TextFault.TooDeep at) → IsDepthFault stream at }
        ensures all_given { (stream : List ℕ) (given : ℕ) (fault : TextFault) → Stands self.old stream given false →
            result ≡ Err fault → fault ≢ TextFault.Memory → IsDueCount stream false given }
    {
        match self.advance()? {
            Step::Event(event) => Ok(Pulled::Event(event)),
            Step::Fault(fault) => Err(fault),
            Step::Used => Ok(Pulled::More),
            Step::Over => unreachable!(),
        }
    }

    /// Reads the comma behind a value or the colon behind a key, where it is the next byte that has come, so that the
    /// calls below find the number or the key behind it. What is said of it is that no event is given and that all else
    /// stands, which holds of reading nothing too: it is a shorter way alone. It takes no memory.
    #[inline]
    pub fn pass_separator(&mut self)
        requires { IsUnfinished self.old }
        ensures stands { (stream : List ℕ) (given : ℕ) → Stands self.old stream given false →
            Stands self.new stream given false }
        ensures unfinished { IsUnfinished self.new }
    {
        if self.is_idle() {
            read_separator(&mut self.machine, &mut self.unread);
        }
    }

    /// The next event, where it is a number without a sign and an exponent, of at most 7 digits before the point and 12
    /// behind it, in a list or an object, and the comma behind it was pushed, or the bracket that closes the list: its
    /// place and its exact value. The event of a bracket comes next. `None` says nothing of the events that are due. It
    /// takes no memory, and is a shorter way to most numbers than `next_event`.
    #[inline]
    pub fn next_counted(&mut self) -> Option<CountedNumber>
        requires { IsUnfinished self.old }
        ensures stands { (stream : List ℕ) (given : ℕ) → Stands self.old stream given false →
            IsSome result → Stands self.new stream (given + 1) false }
        ensures number { (stream : List ℕ) (given : ℕ) → Stands self.old stream given false →
            IfSome result (λ number. IsNextCount stream given number.at number.count) }
        ensures none { result ≡ None → self.new ≡ self.old }
        ensures unfinished { IsUnfinished self.new }
    {
        if !self.is_idle() {
            return None;
        }
        let CountedReading { number, second } = read_counted(&mut self.machine, &mut self.unread)?;
        self.held = second;
        Some(number)
    }

    /// The next event, where it is a key of 1 to 9 digits whose closing quote was pushed: its place, and the number
    /// that the digits write. `None` says nothing of the events that are due. It takes no memory.
    #[inline]
    pub fn next_number_key(&mut self) -> Option<NumberKey>
        requires { IsUnfinished self.old }
        ensures stands { (stream : List ℕ) (given : ℕ) → Stands self.old stream given false →
            IsSome result → Stands self.new stream (given + 1) false }
        ensures key { (stream : List ℕ) (given : ℕ) → Stands self.old stream given false →
            IfSome result (λ key. IsNextNumberKey stream given key.at key.number) }
        ensures none { result ≡ None → self.new ≡ self.old }
        ensures unfinished { IsUnfinished self.new }
    {
        if !self.is_idle() {
            return None;
        }
        let key = read_number_key(&mut self.machine, &mut self.unread)?;
        self.held = None;
        Some(key)
    }

    /// Replaces the counts by those of the numbers that come next in a list, at most so many, as far as each is a
    /// number without a sign and an exponent, of at most 7 digits before the point and 12 behind it, less than 2^63 as
    /// a count of 10^-12, and the comma behind it was pushed. Fewer than that many say nothing of the events that are
    /// due. It takes no memory.
    pub fn next_counts(&mut self, most: usize, counts: &mut ArrayVec<i64, MOST_COUNTS>)
        requires { IsUnfinished self.old }
        ensures stands { (stream : List ℕ) (given : ℕ) → Stands self.old stream given false →
            Stands self.new stream (given + length counts.new.items) false }
        ensures numbers { (stream : List ℕ) (given : ℕ) → Stands self.old stream given false →
            AreNextCounts stream given counts.new.items }
        ensures few { length counts.new.items ≤ most }
        ensures unfinished { IsUnfinished self.new }
    {
        counts.clear();
        if self.is_idle() {
            read_counts(&mut self.machine, &mut self.unread, most, counts);
        }
    }

    /// Whether it reads and holds no event.
    #[inline]
    fn is_idle(&self) -> bool
        ensures { IsTrue result → IsIdle self.now }
    {
        matches!(self.stage, Stage::Reading) && self.held.is_none()
    }

    /// Ends the stream, and answers the next event that is due, or `Done` where the stream is a text nested at most 16
    /// deep and all its events are given; never `More`. Call it behind the last push until it answers `Done` or a
    /// fault.
    ///
    /// # Errors
    ///
    /// `Syntax` and `TooDeep` as by `read_tree` for the whole stream, behind all events that are due; each further call
    /// answers the same. `Memory` may come in place of any answer; then nothing has changed.
    pub fn finish(&mut self) -> Result<Pulled, TextFault>
        ensures stands { (stream : List ℕ) (given : ℕ) (finished : Bool) → Stands self.old stream given finished →
            Stands self.new stream (given_after result given) (finished_after result finished) }
        ensures due { (stream : List ℕ) (given : ℕ) (finished : Bool) (e : Event) →
            Stands self.old stream given finished → result ≡ Ok (Pulled.Event e)
            → IsNextDue stream true given (event_view e) }
        ensures next { (stream : List ℕ) (given : ℕ) (finished : Bool) (e : Event) (tree : json.Tree) →
            Stands self.old stream given finished → result ≡ Ok (Pulled.Event e) →
            IsText stream tree → slice_get (json.events_of tree) given ≡ Some (event_view e) }
        ensures done { (stream : List ℕ) (given : ℕ) (finished : Bool) → Stands self.old stream given finished →
            result ≡ Ok Pulled.Done → IsGivenText stream given }
        ensures not_more { result ≢ Ok Pulled.More }
        ensures syntax { (stream : List ℕ) (given at : ℕ) (finished : Bool) → Stands self.old stream given finished →
            result ≡ Err (TextFault.Syntax at) → IsSyntaxFault stream at }
        ensures first { (stream : List ℕ) (given at : ℕ) (finished : Bool) → Stands self.old stream given finished →
            result ≡ Err (TextFault.Syntax at) → IsShallow stream at }
        ensures too_deep { (stream : List ℕ) (given at : ℕ) (finished : Bool) → Stands self.old stream given finished →
            result ≡ Err (TextFault.TooDeep at) → IsDepthFault stream at }
        ensures all_given { (stream : List ℕ) (given : ℕ) (finished : Bool) (fault : TextFault) →
            Stands self.old stream given finished → result ≡ Err fault → fault ≢ TextFault.Memory →
            IsDueCount stream true given }
    {
        match self.advance()? {
            Step::Event(event) => {
                self.finished = true;
                Ok(Pulled::Event(event))
            }
            Step::Fault(fault) => {
                self.finished = true;
                Err(fault)
            }
            Step::Used => self.conclude(),
            Step::Over => Ok(Pulled::Done),
        }
    }

    /// Goes on to the next event.
    fn advance(&mut self) -> Result<Step, AllocError>
        ensures steps { (stream : List ℕ) (given : ℕ) (finished : Bool) → Stands self.old stream given finished →
            Steps result self.new stream given finished }
        ensures flag { self.new.finished ≡ self.old.finished }
        ensures used { result ≡ Ok Step.Used → IsIdle self.new }
        ensures over { result ≡ Ok Step.Over → self.old.finished ≡ true }
    {
        if let Some(event) = self.held.take() {
            return Ok(Step::Event(event));
        }
        match self.stage {
            Stage::Reading => self.go_on(),
            Stage::Faulty(fault) => Ok(Step::Fault(fault)),
            Stage::Over => Ok(Step::Over),
        }
    }

    /// Reads on to the next event.
    fn go_on(&mut self) -> Result<Step, AllocError>
        requires { IsIdle self.old }
        ensures steps { (stream : List ℕ) (given : ℕ) (finished : Bool) → Stands self.old stream given finished →
            Steps result self.new stream given finished }
        ensures flag { self.new.finished ≡ self.old.finished }
        ensures used { result ≡ Ok Step.Used → IsIdle self.new }
        ensures not_over { result ≢ Ok Step.Over }
    {
        match read_up_to_event(self.alloc, &mut self.machine, &mut self.unread)? {
            Reading::Quiet | Reading::Used => Ok(Step::Used),
            Reading::One(event) => Ok(Step::Event(sound_event(event))),
            Reading::Two(first, second) => {
                self.held = Some(sound_event(second));
                Ok(Step::Event(sound_event(first)))
            }
            Reading::Refused => {
                let at = self.unread.at();
                self.stage = Stage::Faulty(TextFault::Syntax { at });
                Ok(Step::Fault(TextFault::Syntax { at }))
            }
            Reading::TooDeep => {
                let at = self.unread.at();
                self.stage = Stage::Faulty(TextFault::TooDeep { at });
                Ok(Step::Fault(TextFault::TooDeep { at }))
            }
        }
    }

    /// Ends the stream, all bytes of which are used.
    fn conclude(&mut self) -> Result<Pulled, TextFault>
        requires { IsIdle self.old }
        ensures concludes { (stream : List ℕ) (given : ℕ) → IsUsedUp self.old stream given →
            Concludes result self.new stream given }
        ensures memory { result ≡ Err TextFault.Memory → self.new ≡ self.old }
        ensures not_more { result ≢ Ok Pulled.More }
    {
        if !self.machine.may_finish() {
            let at = self.unread.at();
            self.stage = Stage::Faulty(TextFault::Syntax { at });
            self.finished = true;
            return Err(TextFault::Syntax { at });
        }
        let last = self.machine.last_event(self.alloc)?;
        self.stage = Stage::Over;
        self.finished = true;
        match last {
            Some(event) => Ok(Pulled::Event(sound_event(event))),
            None => Ok(Pulled::Done),
        }
    }
}
