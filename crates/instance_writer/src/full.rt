//! An instance as it is, with its load cells of 0.
ghost use Rattle.std.specs.Prelude.{◌≡◌};
ghost use Rattle.instance_writer.specs.Views.{IsViewOf, HasEachCell};

use crate::view::InstanceView;
use fixed_num::Fixed;
use instance_model::Instance;
use std::marker::Model;

/// All of an instance, its load cells of 0 too: contracts see its tables.
///
/// An instance tells the workload of a cell, and not whether there is one, so there is to be each.
#[derive(Drop)]
pub struct FullInstance<'a> {
    inst: &'a Instance,
}

impl<'a> Model for FullInstance<'a> {
    ghost use Rattle.instance_model.specs.Tables.{Tables};
    ghost use Rattle.instance_writer.specs.Views.{HasEachCell};

    ghost Value = { Tables };

    ghost view = { λ full. full.inst.now };

    ghost invariant = { λ full. HasEachCell full.inst.now };
}

impl<'a> FullInstance<'a> {
    /// The instance is to have each load cell that its runs may have.
    pub fn new(inst: &'a Instance) -> FullInstance<'a>
        requires { HasEachCell inst.now }
        ensures tables { result ≡ inst.now }
        ensures shown { IsViewOf result result }
    {
        inst.fits();
        FullInstance { inst }
    }
}

impl InstanceView for FullInstance<'_> {
    ghost base = { λ inst. inst };

    ghost tables = { λ inst. inst };

    fn instance(&self) -> &Instance {
        self.inst
    }

    fn delta(&self, i: u32, s: u32) -> u32 {
        self.inst.delta(i, s)
    }

    fn load(&self, i: u32, s: u32, c: u32, t: u32) -> Option<Fixed> {
        Some(self.inst.load(i, s, c, t))
    }
}
