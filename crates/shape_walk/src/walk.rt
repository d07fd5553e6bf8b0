//! The walk over the events of a text.

ghost use Rattle.std.specs.Prelude.{◌≡◌, ◌∷◌, [], ◌++◌, ◌↔◌, ℕ, ℤ, List, Bool, false, None, Some, IfOk, OnOk, IfSome};
ghost use Rattle.std.specs.Prelude.{◌≤◌, Ok, IsTrue, is_none, length, true};
ghost use Rattle.json_grammar.specs.Tree as json;
ghost use Rattle.json_grammar.specs.Tree.{events_of};
ghost use Rattle.json_grammar.specs.Events.{event_view};
ghost use Rattle.instance_model.specs.declared.limits.Limits.{Limits as Sizes};
ghost use Rattle.instance_shape.specs.Keys.{is_digits, number_of};
ghost use Rattle.instance_shape.specs.ShapeFaults.{shape_faults, IsLeast};
ghost use Rattle.instance_shape.specs.declared.fault.Fault.{Fault as FaultValue};
ghost use Rattle.json_grammar.specs.Stream.{AscendFrom};
ghost use Rattle.decimal_numbers.specs.Exact.{fixed};
ghost use Rattle.shape_walk.specs.Awaits.{AwaitsCount, AwaitsNumberKey, count_room};
ghost use Rattle.shape_walk.specs.CountEvents.{HaveCounts, StandAt, AreReadAs};
ghost use Rattle.shape_walk.specs.declared.taken.Read.TheVariants as reads;
ghost use Rattle.shape_walk.specs.Kept.{spot_after};
ghost use Rattle.shape_walk.specs.Flaws.{flaw_at};
ghost use Rattle.shape_walk.specs.Reads.{nothing_taken, read_of};
ghost use Rattle.shape_walk.specs.Standing.{StandsAfter};
ghost use Rattle.shape_walk.specs.Taking.{Takes};

use crate::counts::Counts;
use crate::frame::Frame;
use crate::taken::{Read, Taken};
use crate::values::{begin_flaw, judge_number, judge_text, word_flaw};
use instance_model::Limits;
use instance_shape::{Fault, Flaw, Spot};
use json_grammar::{Event, NumText};
use std::alloc::{AllocError, Global};
use std::marker::Model;
use std::mem;

/// Follows the shape over the events of a text, one by one, and knows the first fault.
#[derive(Drop)]
pub struct ShapeWalk {
    alloc: Global,
    limits: Limits,
    top: Frame,
    /// What is open around it, the outermost first.
    around: Vec<Frame>,
    counts: Counts,
    fault: Option<Fault>,
}

impl Model for ShapeWalk {
    ghost use Rattle.shape_walk.specs.Counts.{AreWithin};
    ghost use Rattle.shape_walk.specs.Frames.{frame_of, frames_of};
    ghost use Rattle.shape_walk.specs.Standing.{Walk};

    ghost Value = { Walk };

    ghost view = { λ w. record {
      limits = w.limits;
      state = record {
        top = frame_of w.top;
        around = frames_of w.around.items;
        risks = w.counts.risks;
        workloads = w.counts.workloads;
      };
      fault = w.fault;
    } };

    ghost invariant = { λ w. AreWithin w.limits w.counts };
}

impl ShapeWalk {
    /// Before the first event of a text.
    pub fn make(alloc: Global, limits: &Limits) -> ShapeWalk
        ensures { StandsAfter limits.now result [] }
    {
        ShapeWalk {
            alloc,
            limits: *limits,
            top: Frame::Outside,
            around: Vec::new(alloc),
            counts: Counts {
                risks: 0,
                workloads: 0,
            },
            fault: None,
        }
    }

    /// Takes the next event of a text. Once there is a fault, an event changes nothing, and nothing is told of it.
    ///
    /// # Errors
    ///
    /// Where memory runs out; the walk is then of no more use.
    pub fn take(&mut self, event: &Event) -> Result<Taken, AllocError>
        ensures stands { OnOk result ((limits : Sizes) (es : List json.Event) → StandsAfter limits self.old es
            → StandsAfter limits self.new (es ++ event_view event.now ∷ [])) }
        ensures spot { IfOk result (λ taken. (limits : Sizes) (es : List json.Event) → StandsAfter limits self.old es
            → self.old.fault ≡ None → taken.spot ≡ spot_after es (event_view event.now)) }
        ensures read { IfOk result (λ taken. self.old.fault ≡ None
            → taken.read ≡ read_of taken.spot (event_view event.now)) }
        ensures keeps { (f : FaultValue) → self.old.fault ≡ Some f → self.new ≡ self.old }
        ensures untold { (f : FaultValue) → self.old.fault ≡ Some f → result ≡ Ok nothing_taken }
    {
        if self.fault.is_some() {
            return Ok(Taken {
                spot: Spot::Skipped,
                read: Read::Nothing,
            });
        }
        self.follow(event)
    }

    /// The spot of the next value, where numbers at it are read as counts and no fault is known. What has come so far
    /// doesn't tell whether a value comes next.
    #[inline]
    pub fn awaits_count(&self) -> Option<Spot>
        ensures awaits { IfSome result (λ spot. AwaitsCount self.now spot) }
        ensures only { (spot : Spot) → AwaitsCount self.now spot → result ≡ Some spot }
    {
        let spot = self.top.next_spot();
        let is_count = matches!(
            spot,
            Spot::RiskNumber | Spot::WorkloadNumber | Spot::BandLimit
        );
        if is_count && self.fault.is_none() {
            Some(spot)
        } else {
            None
        }
    }

    /// Takes the next event of a text, which is a number at the spot and whose value is exactly a count of 10^-12: what
    /// `take` does with each such event. Tells whether numbers are still awaited at the spot, which
    /// only a fault ends. It takes no memory.
    #[inline]
    pub fn take_count(&mut self, at: u64, spot: Spot) -> bool
        requires { AwaitsCount self.old spot }
        ensures stands { (limits : Sizes) (es : List json.Event) (token : List ℕ) (count : ℤ)
            → fixed token ≡ Some (count, false) → StandsAfter limits self.old es
            → StandsAfter limits self.new (es ++ json.Event.number at token ∷ []) }
        ensures spot { (limits : Sizes) (es : List json.Event) (token : List ℕ) → StandsAfter limits self.old es
            → spot ≡ spot_after es (json.Event.number at token) }
        ensures read { (token : List ℕ) (count : ℤ) → fixed token ≡ Some (count, false)
            → read_of spot (json.Event.number at token) ≡ reads.Count count false }
        ensures fault { result ≡ is_none self.new.fault }
        ensures awaits { IsTrue result → AwaitsCount self.new spot }
    {
        self.top.pass();
        match self.counts.count(&self.limits, spot) {
            None => true,
            Some(flaw) => {
                self.fault = Some(Fault { at, flaw });
                false
            }
        }
    }

    /// How many more numbers at a spot the limits allow: `u64::MAX` where they bound none.
    #[inline]
    pub fn count_room(&self, spot: Spot) -> u64
        ensures { result ≡ count_room self.now spot }
    {
        self.counts.room(&self.limits, spot)
    }

    /// Takes the next events of a text, so many numbers at the spot, each with a value that is exactly a count of
    /// 10^-12. It does at once what `take_count` does with them one by one; the limits allow them, so there is no
    /// fault. It takes no memory.
    #[inline]
    pub fn take_counts(&mut self, spot: Spot, count: u64)
        requires awaits { AwaitsCount self.old spot }
        requires room { count ≤ count_room self.old spot }
        ensures stands { (limits : Sizes) (es numbers : List json.Event) (counts : List ℤ)
            → HaveCounts numbers counts → length counts ≡ count → StandsAfter limits self.old es
            → StandsAfter limits self.new (es ++ numbers) }
        ensures spots { (limits : Sizes) (es numbers : List json.Event) (counts : List ℤ)
            → HaveCounts numbers counts → StandsAfter limits self.old es → StandAt spot es numbers }
        ensures read { (numbers : List json.Event) (counts : List ℤ)
            → HaveCounts numbers counts → AreReadAs spot numbers counts }
        ensures awaits { AwaitsCount self.new spot }
    {
        self.top.pass_all(count);
        self.counts.count_all(&self.limits, spot, count);
    }

    /// Whether the innermost that is open is an object whose keys are periods or starts, and no fault is known. What
    /// has come so far doesn't tell whether a key comes next.
    #[inline]
    pub fn awaits_number_key(&self) -> bool
        ensures { IsTrue result ↔ AwaitsNumberKey self.now }
    {
        self.fault.is_none() && self.top.has_number_keys()
    }

    /// Takes the next event of a text, which is a key in the form of a period or start that writes the number: what
    /// `take` does with each such event.
    ///
    /// # Errors
    ///
    /// Where memory runs out; the walk is then of no more use.
    pub fn take_number_key(&mut self, at: u64, number: u32) -> Result<Taken, AllocError>
        requires { AwaitsNumberKey self.old }
        ensures stands { OnOk result ((limits : Sizes) (es : List json.Event) (end : ℕ) (text : List ℕ)
            → is_digits text ≡ true → number_of text ≡ number → StandsAfter limits self.old es
            → StandsAfter limits self.new (es ++ json.key at end text ∷ [])) }
        ensures spot { IfOk result (λ taken. (limits : Sizes) (es : List json.Event) (end : ℕ) (text : List ℕ)
            → StandsAfter limits self.old es → taken.spot ≡ spot_after es (json.key at end text)) }
        ensures read { IfOk result (λ taken. (end : ℕ) (text : List ℕ)
            → is_digits text ≡ true → number_of text ≡ number
            → taken.read ≡ read_of taken.spot (json.key at end text)) }
        ensures whole { IfOk result (λ taken. taken.read ≡ reads.Whole number) }
    {
        let judged = self.top.take_number_key(number)?;
        self.fault = fault_at(at, judged.flaw);
        Ok(judged.taken)
    }

    /// The first fault so far. Behind all events of a text it is none exactly where the text has no fault of shape, and
    /// else the one that counts.
    pub fn fault(&self) -> Option<Fault>
        ensures same { result ≡ self.now.fault }
        ensures none { (limits : Sizes) (root : json.Tree) → AscendFrom 0 (events_of root)
            → StandsAfter limits self.now (events_of root) → (result ≡ None) ↔ (shape_faults limits root ≡ []) }
        ensures least { (limits : Sizes) (root : json.Tree) → AscendFrom 0 (events_of root)
            → StandsAfter limits self.now (events_of root)
            → (f : FaultValue) → (result ≡ Some f) ↔ IsLeast (shape_faults limits root) f }
    {
        self.fault
    }

    /// Takes an event without a fault before it.
    fn follow(&mut self, event: &Event) -> Result<Taken, AllocError>
        requires { self.old.fault ≡ None }
        ensures { IfOk result (Takes self.old (event_view event.now) self.new) }
    {
        match event {
            Event::Begin { at, object } => self.take_begin(*at, *object),
            Event::Finish { at } => Ok(self.take_finish(*at)),
            Event::Key { at, text, .. } => self.take_key(*at, text.as_str()),
            Event::Null { at } => Ok(self.take_word(*at)),
            Event::Bool { at, .. } => Ok(self.take_word(*at)),
            Event::Num { at, num } => Ok(self.take_number(*at, num)),
            Event::Text { at, text, .. } => Ok(self.take_text(*at, text.as_str())),
        }
    }

    /// The first byte of an object or a list.
    fn take_begin(&mut self, at: u64, object: bool) -> Result<Taken, AllocError>
        requires { self.old.fault ≡ None }
        ensures { IfOk result (Takes self.old (json.begin at object) self.new) }
    {
        let spot = self.top.next_spot();
        self.fault = fault_at(at, begin_flaw(spot, object));
        let begun = Frame::begin(self.alloc, spot, object);
        let outer = mem::replace(&mut self.top, begun);
        self.around.push(outer)?;
        Ok(Taken {
            spot,
            read: Read::Nothing,
        })
    }

    /// The closing bracket or brace of what is open.
    fn take_finish(&mut self, at: u64) -> Taken
        requires { self.old.fault ≡ None }
        ensures { Takes self.old (json.finish at) self.new result }
    {
        let spot = self.top.spot();
        self.fault = fault_at(at, self.top.closing_flaw());
        self.top = match self.around.pop() {
            None => Frame::Outside,
            Some(outer) => outer,
        };
        self.top.pass();
        Taken {
            spot,
            read: Read::Nothing,
        }
    }

    /// A key of the object that is open.
    fn take_key(&mut self, at: u64, key: &str) -> Result<Taken, AllocError>
        requires { self.old.fault ≡ None }
        ensures { (end : ℕ) → IfOk result (Takes self.old (json.key at end key.now) self.new) }
    {
        let judged = self.top.take_key(self.alloc, &self.limits, key)?;
        self.fault = fault_at(at, judged.flaw);
        Ok(judged.taken)
    }

    /// `null`, `true` or `false`.
    fn take_word(&mut self, at: u64) -> Taken
        requires { self.old.fault ≡ None }
        ensures null { Takes self.old (json.Event.null at) self.new result }
        ensures boolean { (b : Bool) → Takes self.old (json.Event.boolean at b) self.new result }
    {
        let spot = self.top.pass();
        self.fault = fault_at(at, word_flaw(spot));
        Taken {
            spot,
            read: Read::Nothing,
        }
    }

    /// A number.
    fn take_number(&mut self, at: u64, num: &NumText) -> Taken
        requires { self.old.fault ≡ None }
        ensures { Takes self.old (json.Event.number at num.now) self.new result }
    {
        let spot = self.top.pass();
        let judged = judge_number(&self.limits, spot, num);
        let past = self.counts.count(&self.limits, spot);
        self.fault = fault_at(at, judged.flaw.or(past));
        judged.taken
    }

    /// A text that is no key.
    fn take_text(&mut self, at: u64, text: &str) -> Taken
        requires { self.old.fault ≡ None }
        ensures { (end : ℕ) → Takes self.old (json.Event.text at end text.now) self.new result }
    {
        let spot = self.top.pass();
        let judged = judge_text(&self.limits, spot, text);
        self.fault = fault_at(at, judged.flaw);
        judged.taken
    }
}

/// A flaw at a place, as a fault.
fn fault_at(at: u64, flaw: Option<Flaw>) -> Option<Fault>
    ensures { result ≡ flaw_at at flaw }
{
    flaw.map(|flaw| Fault { at, flaw })
}
