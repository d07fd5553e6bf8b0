//! Whether an intervention is in progress.
ghost use Rattle.std.specs.Prelude.{◌≡◌, ◌<◌, length, IsTrue};
ghost use Rattle.instance_model.specs.Tables.{is_allowed, in_run as in_run_of};

use duration_calendar::{in_run, run};
use instance_model::Instance;

/// Whether period `t` is in the run of intervention `i` at start `s`.
pub fn is_in_progress(inst: &Instance, i: u32, s: u32, t: u32) -> bool
    requires number { i < length inst.now.names }
    requires allowed { IsTrue (is_allowed inst.now i s) }
    ensures { result ≡ in_run_of inst.now i s t }
{
    in_run(run(inst, i, s), t)
}
