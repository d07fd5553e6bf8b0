//! The drawn instance is read from its text, and its opening plan is made.
ghost use Rattle.std.specs.Prelude.{◌≡◌, ◌≤◌, IfOk};
ghost use Rattle.instance_model.specs.Keys.{IsOpening};
ghost use Rattle.instance_gen.specs.Drawn.{drawn_tables};

use fixed_num::Fixed;
use instance_gen::{drawn_texts_are_read, generate, starts_are_allowed};
use instance_model::{Instance, Limits, Starts};
use instance_read::{InstanceFault, read_instance};
use local_search::{Opening, opening_of};
use std::alloc::{AllocError, Global};

/// The instance that the drawn text stands for.
pub(crate) fn read_drawn(alloc: Global, seed: u64, count: u32) -> Result<Instance, AllocError>
    requires from { 1 ≤ count }
    requires to { count ≤ 200 }
    ensures { IfOk result (λ inst. inst ≡ drawn_tables seed count) }
{
    drawn_texts_are_read();
    let text = generate(alloc, seed, count)?;
    match read_instance(
        alloc,
        &Limits::standard(),
        Fixed::zero(),
        text.as_str().as_bytes(),
    ) {
        Ok(inst) => Ok(inst),
        Err(InstanceFault::Memory) => Err(AllocError),
        Err(_) => unreachable!(),
    }
}

/// Its opening plan: each intervention has an allowed start.
pub(crate) fn open_drawn(
    alloc: Global,
    inst: &Instance,
    seed: u64,
    count: u32,
) -> Result<Starts, AllocError>
    requires { inst.now ≡ drawn_tables seed count }
    ensures { IfOk result (IsOpening inst.now) }
{
    starts_are_allowed();
    let opening = opening_of(alloc, inst)?;
    match opening {
        Opening::From(starts) => Ok(starts),
        Opening::Without { .. } => unreachable!(),
    }
}
