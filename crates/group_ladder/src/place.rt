//! Places in lists by intervention, then period, and in lists by resource, then period.
ghost use Rattle.std.specs.Prelude.{◌*◌, ◌<◌, ◌≤◌, length};
ghost use Rattle.lagrange_bound.specs.Changes.{IsBandPlace};

use instance_model::Instance;

/// The place of period `t` of intervention `i`.
pub(crate) fn period_place(inst: &Instance, i: u32, t: u32) -> usize
    requires number { i < length inst.now.names }
    requires from { 1 ≤ t }
    requires to { t ≤ inst.now.periods }
    ensures { result < length inst.now.names * inst.now.periods }
{
    inst.fits();
    i as usize * inst.periods() as usize + (t as usize - 1)
}

/// The place of resource `c` in period `t`.
pub(crate) fn band_place(inst: &Instance, c: u32, t: u32) -> usize
    requires { IsBandPlace inst.now c t }
    ensures { result < length inst.now.resource_names * inst.now.periods }
{
    inst.fits();
    c as usize * inst.periods() as usize + (t as usize - 1)
}
