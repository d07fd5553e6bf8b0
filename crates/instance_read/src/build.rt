//! The instance of what was kept.

ghost use Rattle.std.specs.Prelude.{ℕ, List, None, IfOk, IfErr};
ghost use Rattle.instance_model.specs.declared.limits.Limits.{Limits as Sizes};
ghost use Rattle.instance_shape.specs.Defined.{Defines};
ghost use Rattle.instance_shape.specs.Ranges.{AreStandard, IsSlack};
ghost use Rattle.instance_read.specs.Reading.{TellsFault};
ghost use Rattle.instance_read.specs.Readers.{HaveEnded, HaveEndedSomewhere};

use crate::fault::InstanceFault;
use crate::keeper::Keeper;
use crate::part_faults::{of_rows, of_shape};
use fixed_num::Fixed;
use instance_model::Instance;
use instance_rows::assemble;
use shape_walk::ShapeWalk;
use std::alloc::Global;

/// The instance of a text all events of which were taken, or its fault of shape, or else its fault across the file.
pub fn build(
    alloc: Global,
    walk: &ShapeWalk,
    keeper: &mut Keeper,
    slack: Fixed,
) -> Result<Instance, InstanceFault>
    requires ended { HaveEndedSomewhere walk.now keeper.old }
    requires slack { IsSlack slack }
    ensures built { (limits : Sizes) (bytes : List ℕ) → AreStandard limits → HaveEnded limits walk.now keeper.old bytes
        → IfOk result (λ inst. Defines limits slack bytes inst) }
    ensures fault { (limits : Sizes) (bytes : List ℕ) → AreStandard limits → HaveEnded limits walk.now keeper.old bytes
        → IfErr result (TellsFault limits bytes) }
{
    match walk.fault() {
        Some(fault) => Err(of_shape(fault)),
        None => {
            let rows = keeper.take_rows()?;
            match assemble(alloc, rows, slack) {
                Ok(instance) => Ok(instance),
                Err(fault) => Err(of_rows(fault)),
            }
        }
    }
}
