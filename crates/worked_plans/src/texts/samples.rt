//! The instance of the tests.

ghost use Rattle.std.specs.Prelude.{◌≡◌, length, IfOk};

use instance_model::Instance;
use small_instances::{Sketch, instance};
use std::alloc::{AllocError, Global};

/// One period, and one start for each intervention, which passes the end.
const TWO: Sketch<'static> = Sketch {
    periods: 1,
    alpha: 0,
    quantile: 1,
    scenarios: &[1],
    resources: 0,
    upper: &[],
    lower: &[],
    seasons: 0,
    in_season: &[],
    delta: &[&[9], &[9]],
    excluded: &[],
    loads: &[&[], &[]],
    risks: &[],
    soft: &[],
};

/// Two interventions, N1 and N2.
pub fn two_names(alloc: Global) -> Result<Instance, AllocError>
    ensures { IfOk result (λ inst. length inst.names ≡ 2) }
{
    instance(alloc, &TWO)
}
