//! Reading an instance from the pieces of its text.

use crate::build::build;
use crate::fault::InstanceFault;
use crate::follow::{finish_events, take_events};
use crate::keeper::Keeper;
use crate::part_faults::of_text;
use fixed_num::Fixed;
use instance_model::{Instance, Limits};
use json_events::Pull;
use json_grammar::TextFault;
use shape_walk::ShapeWalk;
use std::alloc::{AllocError, Global};

/// A reader of an instance that is fed its text in pieces. After a fault of the text further pieces are dropped; after
/// a fault of the shape nothing is kept any more.
#[derive(Drop)]
pub struct Reader {
    pull: Pull,
    walk: ShapeWalk,
    keeper: Keeper,
    /// The fault of the text.
    fault: Option<TextFault>,
}

impl Reader {
    ghost use Rattle.std.specs.Prelude.{◌++◌, [], ℕ, List, IfOk, OnOk, IfErr};
    ghost use Rattle.json_events.specs.Pulls.{IsUnfinished};
    ghost use Rattle.instance_model.specs.declared.limits.Limits.{Limits as Sizes};
    ghost use Rattle.instance_shape.specs.Defined.{Defines};
    ghost use Rattle.instance_shape.specs.Ranges.{AreStandard, IsSlack};
    ghost use Rattle.instance_read.specs.Reading.{TellsFault};
    ghost use Rattle.instance_read.specs.Fed.{HasRead, HasReadSome};

    /// A reader to which nothing was fed.
    pub fn make(alloc: Global, limits: &Limits) -> Result<Reader, AllocError>
        ensures read { IfOk result (λ reader. HasRead limits.now reader []) }
        ensures unfinished { IfOk result (λ reader. IsUnfinished reader.pull) }
    {
        Ok(Reader {
            pull: Pull::make(alloc)?,
            walk: ShapeWalk::make(alloc, limits),
            keeper: Keeper::make(alloc),
            fault: None,
        })
    }

    /// Reads the next piece of the text. After an `Err` the reader is of no more use.
    pub fn feed(&mut self, piece: &[u8]) -> Result<(), AllocError>
        requires { IsUnfinished self.old.pull }
        ensures read { (limits : Sizes) (bytes : List ℕ) → HasRead limits self.old bytes
            → OnOk result (HasRead limits self.new (bytes ++ piece.now)) }
        ensures unfinished { IsUnfinished self.new.pull }
    {
        if self.fault.is_some() {
            return Ok(());
        }
        self.pull.push(piece)?;
        self.fault = take_events(&mut self.pull, &mut self.walk, &mut self.keeper)?;
        Ok(())
    }

    /// The instance of the text, once all of it was fed, or its fault. After it the reader is of no more use.
    pub fn conclude(&mut self, alloc: Global, slack: Fixed) -> Result<Instance, InstanceFault>
        requires read { HasReadSome self.old }
        requires slack { IsSlack slack }
        ensures built { (limits : Sizes) (bytes : List ℕ) → AreStandard limits → HasRead limits self.old bytes
            → IfOk result (λ inst. Defines limits slack bytes inst) }
        ensures fault { (limits : Sizes) (bytes : List ℕ) → AreStandard limits → HasRead limits self.old bytes
            → IfErr result (TellsFault limits bytes) }
    {
        if let Some(fault) = self.fault {
            return Err(of_text(fault));
        }
        match finish_events(&mut self.pull, &mut self.walk, &mut self.keeper)? {
            Some(fault) => Err(of_text(fault)),
            None => build(alloc, &self.walk, &mut self.keeper, slack),
        }
    }

    /// Lets its memory go.
    pub fn close(self) {}
}
