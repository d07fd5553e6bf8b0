//! What is open in a text.

ghost use Rattle.std.specs.Prelude.{◌≡◌, ◌↔◌, ℕ, List, true, None, IfOk, IsTrue};
ghost use Rattle.instance_model.specs.declared.limits.Limits.{Limits as Sizes};
ghost use Rattle.instance_shape.specs.declared.spot.Kind.TheVariants as kinds;
ghost use Rattle.instance_shape.specs.Keys.{is_digits, number_of};
ghost use Rattle.instance_shape.specs.Shape as shape;
ghost use Rattle.instance_shape.specs.Shape.{kind_of as kind};
ghost use Rattle.shape_walk.specs.declared.taken.Read.TheVariants as reads;
ghost use Rattle.shape_walk.specs.Flaws.{first_flaw};
ghost use Rattle.shape_walk.specs.Frames.{frame_of};
ghost use Rattle.shape_walk.specs.Kept.{open_spot, object_spot};
ghost use Rattle.shape_walk.specs.Machine as machine;
ghost use Rattle.shape_walk.specs.Reads.{read_of_key};
ghost use Rattle.shape_walk.specs.Runs.{behind_all, many_more};

use crate::judged::Judged;
use crate::open::Open;
use crate::seen::Seen;
use instance_model::Limits;
use instance_shape::{Flaw, Kind, Spot, element, kind_of, under};
use std::alloc::{AllocError, Global};

/// The innermost object or list that is open, or the text itself. The elements of a list are counted to three, since no
/// spot asks for more.
#[derive(Drop)]
pub enum Frame {
    Outside,
    Object(Open),
    List(Spot, u8),
}

impl Frame {
    /// An object or a list that begins at a spot.
    pub fn begin(alloc: Global, spot: Spot, object: bool) -> Frame
        ensures { frame_of result ≡ machine.begun object spot }
    {
        if object {
            Frame::Object(Open {
                spot,
                seen: Seen::none(alloc, spot),
                next: Spot::Skipped,
            })
        } else {
            Frame::List(spot, 0)
        }
    }

    /// Its own spot.
    pub fn spot(&self) -> Spot
        ensures { result ≡ open_spot (frame_of self.now) }
    {
        match self {
            Frame::Outside => Spot::Skipped,
            Frame::Object(open) => open.spot,
            Frame::List(spot, _) => *spot,
        }
    }

    /// The spot of the next value in it.
    pub fn next_spot(&self) -> Spot
        ensures { result ≡ machine.next_spot (frame_of self.now) }
    {
        match self {
            Frame::Outside => Spot::Root,
            Frame::Object(open) => open.next,
            Frame::List(spot, before) => element(*spot, u64::from(*before)),
        }
    }

    /// Passes over a value in it, and tells the value's spot.
    pub fn pass(&mut self) -> Spot
        ensures spot { result ≡ machine.next_spot (frame_of self.old) }
        ensures frame { frame_of self.new ≡ machine.behind (frame_of self.old) }
    {
        match self {
            Frame::Outside => Spot::Root,
            Frame::Object(open) => open.next,
            Frame::List(spot, before) => {
                let spot = element(*spot, u64::from(*before));
                if *before < 3 {
                    *before += 1;
                }
                spot
            }
        }
    }

    /// Passes over so many values in it.
    pub fn pass_all(&mut self, count: u64)
        ensures { frame_of self.new ≡ behind_all count (frame_of self.old) }
    {
        if let Frame::List(_, before) = self {
            *before = many_more(*before, count);
        }
    }

    /// What is wrong at its closing bracket or brace.
    pub fn closing_flaw(&self) -> Option<Flaw>
        ensures { (at : ℕ) → result ≡ first_flaw (machine.closing_faults at (frame_of self.now)) }
    {
        match self {
            Frame::Outside => None,
            Frame::Object(open) => open.seen.closing_flaw(open.spot),
            Frame::List(spot, before) => {
                if matches!(kind_of(*spot), Kind::Triple) && *before < 3 {
                    Some(Flaw::Shape)
                } else {
                    None
                }
            }
        }
    }

    /// Takes a key in it.
    pub fn take_key(
        &mut self,
        alloc: Global,
        limits: &Limits,
        key: &str,
    ) -> Result<Judged, AllocError>
        ensures flaw { IfOk result (λ r. (at : ℕ) → r.flaw
            ≡ first_flaw (machine.faults_of_key limits.now at key.now (frame_of self.old))) }
        ensures taken { IfOk result (λ r. let spot = object_spot (frame_of self.old) in r.taken
            ≡ record { spot = spot; read = read_of_key (kind spot) key.now }) }
        ensures frame { IfOk result (λ r. r.flaw ≡ None
            → frame_of self.new ≡ machine.behind_key key.now (frame_of self.old)) }
    {
        match self {
            Frame::Object(open) => {
                let judged = open.seen.take(alloc, limits, open.spot, key)?;
                open.next = under(open.spot, key);
                Ok(judged)
            }
            Frame::Outside | Frame::List(_, _) => Ok(Judged::unread(Spot::Skipped, None)),
        }
    }

    /// Whether it is an object whose keys are periods or starts.
    #[inline]
    pub fn has_number_keys(&self) -> bool
        ensures { IsTrue result ↔ (kind (object_spot (frame_of self.now)) ≡ kinds.Numbers) }
    {
        match self {
            Frame::Object(open) => matches!(kind_of(open.spot), Kind::Numbers),
            Frame::Outside | Frame::List(_, _) => false,
        }
    }

    /// Takes a key in it that is a period or start, by the number that it writes.
    pub fn take_number_key(&mut self, number: u32) -> Result<Judged, AllocError>
        requires { kind (object_spot (frame_of self.old)) ≡ kinds.Numbers }
        ensures flaw { IfOk result (λ r. (limits : Sizes) (at : ℕ) (key : List ℕ)
            → is_digits key ≡ true → number_of key ≡ number
            → r.flaw ≡ first_flaw (machine.faults_of_key limits at key (frame_of self.old))) }
        ensures taken { IfOk result (λ r. r.taken
            ≡ record { spot = object_spot (frame_of self.old); read = reads.Whole number }) }
        ensures frame { IfOk result (λ r. (key : List ℕ) → is_digits key ≡ true → number_of key ≡ number
            → r.flaw ≡ None → frame_of self.new ≡ machine.behind_key key (frame_of self.old)) }
    {
        match self {
            Frame::Object(open) => {
                let judged = open.seen.take_number(open.spot, number)?;
                open.next = under_numbers(open.spot);
                Ok(judged)
            }
            Frame::Outside | Frame::List(_, _) => unreachable!(),
        }
    }
}

/// The spot of the values under the periods or starts of an object at a spot.
fn under_numbers(spot: Spot) -> Spot
    requires { kind spot ≡ kinds.Numbers }
    ensures { (key : List ℕ) → result ≡ shape.under spot key }
{
    match spot {
        Spot::WorkloadResource => Spot::WorkloadPeriod,
        Spot::WorkloadPeriod => Spot::WorkloadNumber,
        Spot::Risk => Spot::RiskPeriod,
        Spot::RiskPeriod => Spot::RiskStart,
        _ => unreachable!(),
    }
}

/// So many elements more, counted to three.
fn many_more(before: u8, count: u64) -> u8
    ensures { result ≡ many_more count before }
{
    if before < 3 {
        (before + count.min(3) as u8).min(3)
    } else {
        before
    }
}
