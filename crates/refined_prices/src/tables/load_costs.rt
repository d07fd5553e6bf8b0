//! What the prices on limits add at each start of an intervention.
ghost use Rattle.std.specs.Prelude.{◌≡◌, ◌<◌, ◌≤◌, ◌^◌, ◌*◌, pos, ◌-ℤ◌, ◌*ℤ◌, length, IfOk, unsigned_abs};
ghost use Rattle.refined_prices.specs.RefinedLists.{IsRefinedList};
ghost use Rattle.refined_prices.specs.tables.CapTables.{IsCapTable};
ghost use Rattle.refined_prices.specs.tables.LoadCosts.{load_share};
ghost use Rattle.refined_prices.specs.tables.RefinedRows.{AreCostsOf};

use crate::refined::RefinedPrices;
use crate::tables::cap_table::CapTable;
use fixed_num::Fixed;
use instance_model::Instance;
use std::alloc::{AllocError, Global};

/// A price on an upper limit times the load, less one on a lower limit times the load that counts.
fn weighed(up: u32, lo: u32, load: i128, counted: i128) -> i128
    requires up { up ≤ 1_000_000_000 }
    requires lo { lo ≤ 1_000_000_000 }
    requires load { unsigned_abs load ≤ 10 ^ 20 }
    requires counted { unsigned_abs counted ≤ 10 ^ 20 }
    ensures value { result ≡ (pos up *ℤ load) -ℤ (pos lo *ℤ counted) }
    ensures small { unsigned_abs result ≤ 2 * 10 ^ 29 }
{
    up as i128 * load - lo as i128 * counted
}

/// What the prices on the limits of resource `c` in period `t` add for a load.
fn load_cost(
    inst: &Instance,
    list: &RefinedPrices,
    caps: &CapTable,
    c: u32,
    t: u32,
    load: Fixed,
) -> i128
    requires list { IsRefinedList inst.now list.now }
    requires caps { IsCapTable inst.now caps.now }
    requires resource { c < length inst.now.resource_names }
    requires from { 1 ≤ t }
    requires to { t ≤ inst.now.periods }
    requires small { unsigned_abs load ≤ 10 ^ 20 }
    ensures value { result ≡ load_share inst.now list.now c t load }
    ensures small { unsigned_abs result ≤ 2 * 10 ^ 29 }
{
    let up = list.prices().up(inst, c, t);
    let lo = list.prices().lo(inst, c, t);
    let load = load.count();
    if !list.capped() {
        return weighed(up, lo, load, load);
    }
    let counted = load.min(caps.cap(inst, c, t));
    weighed(up, lo, load, counted)
}

/// What the prices on limits add at each start of intervention `i`, from start 1 on. Goes over each workload once.
pub(crate) fn load_costs(
    alloc: Global,
    inst: &Instance,
    list: &RefinedPrices,
    caps: &CapTable,
    i: u32,
) -> Result<Vec<i128>, AllocError>
    requires number { i < length inst.now.names }
    requires list { IsRefinedList inst.now list.now }
    requires caps { IsCapTable inst.now caps.now }
    ensures { IfOk result (λ costs. AreCostsOf inst.now list.now i costs.items) }
{
    inst.fits();
    let mut costs: Vec<i128> = vec![in alloc; 0; inst.tmax(i) as usize]?;
    for cell in inst.workloads(i) {
        let cost = load_cost(inst, list, caps, cell.resource, cell.period, cell.load);
        let place = cell.start as usize - 1;
        costs[place] += cost;
    }
    Ok(costs)
}
