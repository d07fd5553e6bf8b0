//! What is seen of an instance.
ghost use Rattle.std.specs.Prelude.{◌≡◌, ◌<◌, ◌≤◌, length, IsTrue};
ghost use Rattle.instance_model.specs.Tables.{Tables, tmax, delta_of, is_allowed, in_run};
ghost use Rattle.instance_writer.specs.Views.{cell_load};

use fixed_num::Fixed;
use instance_model::Instance;

/// What is seen of an instance: all of it but for other durations, and for load cells that are left out.
pub trait InstanceView {
    /// The instance.
    ghost base: { Self → Tables };

    /// What is seen.
    ghost tables: { Self → Tables };

    fn instance(&self) -> &Instance
        ensures { result.now ≡ base self.now };

    /// The duration of intervention `i` at start `s`, in periods.
    fn delta(&self, i: u32, s: u32) -> u32
        requires number { i < length (base self.now).names }
        requires from { 1 ≤ s }
        requires to { s ≤ tmax (base self.now) i }
        ensures { result ≡ delta_of (tables self.now) i s };

    /// The workload of the load cell of intervention `i` at start `s`, of resource `c` in period `t`, where there is
    /// one.
    fn load(&self, i: u32, s: u32, c: u32, t: u32) -> Option<Fixed>
        requires number { i < length (base self.now).names }
        requires resource { c < length (base self.now).resource_names }
        requires allowed { IsTrue (is_allowed (tables self.now) i s) }
        requires running { IsTrue (in_run (tables self.now) i s t) }
        ensures { result ≡ cell_load (tables self.now) i s c t };
}
