//! The scenario sums of a period, from scratch.
ghost use Rattle.std.specs.Prelude.{◌≡◌, ◌+◌, ◌<◌, ◌≤◌, pos, Some, length, map, IfOk};
ghost use Rattle.fixed_num.specs.Sums.{list_of};
ghost use Rattle.instance_model.specs.Plans.{AreAllowedStarts, scenario_sums, sums_before};

use duration_calendar::{in_run, run};
use fixed_num::{Steps, Sum};
use instance_model::Instance;
use std::alloc::{AllocError, Global};
use std::sync::ledger::Ledger;

/// Adds intervention `i` to the scenario sums of those before it.
fn add_run<L: Ledger>(
    inst: &Instance,
    starts: &[u32],
    t: u32,
    i: u32,
    sums: &mut [Sum],
    steps: &mut Steps<L>,
)
    requires starts { AreAllowedStarts inst.now starts.now }
    requires from { 1 ≤ t }
    requires to { t ≤ inst.now.periods }
    requires number { i < length inst.now.names }
    requires before { sums.old ≡ sums_before inst.now (map Some starts.now) t i }
    ensures { sums.new ≡ sums_before inst.now (map Some starts.now) t (i + 1) }
{
    inst.fits();
    let s = starts[i as usize];
    if in_run(run(inst, i, s), t) {
        inst.add_risks(i, s, t, sums, steps);
    }
}

/// As many sums of 0.
fn zeros(alloc: Global, n: u32) -> Result<Vec<Sum>, AllocError>
    ensures { IfOk result (λ sums. sums.items ≡ list_of n (λ k. pos 0)) }
{
    let mut sums = Vec::with_capacity(alloc, n as usize)?;
    for k in 0..n {
        sums.push(Sum::zero())?;
    }
    Ok(sums)
}

/// The scenario sums of period `t` where each intervention has its start.
pub(crate) fn sums_of<L: Ledger>(
    alloc: Global,
    inst: &Instance,
    starts: &[u32],
    t: u32,
    steps: &mut Steps<L>,
) -> Result<Vec<Sum>, AllocError>
    requires starts { AreAllowedStarts inst.now starts.now }
    requires from { 1 ≤ t }
    requires to { t ≤ inst.now.periods }
    ensures { IfOk result (λ sums. sums.items ≡ scenario_sums inst.now (map Some starts.now) t) }
{
    let mut sums = zeros(alloc, inst.scenarios(t))?;
    for i in 0..inst.interventions() {
        add_run(inst, starts, t, i, sums.as_mut_slice(), steps);
    }
    Ok(sums)
}
