//! The cap table: contracts see what all interventions together can take away, by resource, then period.
ghost use Rattle.std.specs.Prelude.{◌≡◌, ℕ, ◌+◌, ◌-◌, ◌*◌, ◌<◌, ◌≤◌, ◌^◌, pos, ◌+ℤ◌, ◌-ℤ◌, ◌≤ℤ◌, length, IfOk};
ghost use Rattle.std.specs.Prelude.{slice_index_or, unsigned_abs};
ghost use Rattle.std.specs.Int.{int_max};
ghost use Rattle.refined_prices.specs.Caps.{most_taken, cap_of};
ghost use Rattle.refined_prices.specs.tables.CapTables.{band_place, AreByBand, IsCapTable};

use fixed_num::Fixed;
use instance_model::Instance;
use std::alloc::{AllocError, Global};
use std::marker::Model;

/// What a cap adds to its limit, for all resources and periods.
#[derive(Drop)]
pub struct CapTable {
    taken: Vec<i128>,
}

impl Model for CapTable {
    ghost use Rattle.std.specs.Prelude.{ℤ, List};

    ghost Value = { List ℤ };

    ghost view = { λ table. table.taken.items };
}

impl CapTable {
    /// The table of an instance. Goes over each workload once. Takes memory.
    pub fn make(alloc: Global, inst: &Instance) -> Result<CapTable, AllocError>
        ensures { IfOk result (λ table. IsCapTable inst.now table) }
    {
        inst.fits();
        let mut taken: Vec<i128> = vec![in alloc; 0; inst.resources() as usize
            * inst.periods() as usize]?;
        for i in 0..inst.interventions() {
            let row = taken_by(alloc, inst, i)?;
            add_row(&mut taken, row.as_slice());
        }
        Ok(CapTable { taken })
    }

    /// The cap of the lower limit of resource `c` in period `t`.
    pub fn cap(&self, inst: &Instance, c: u32, t: u32) -> i128
        requires table { IsCapTable inst.now self.now }
        requires resource { c < length inst.now.resource_names }
        requires from { 1 ≤ t }
        requires to { t ≤ inst.now.periods }
        ensures value { result ≡ cap_of inst.now c t }
        ensures some { pos 0 ≤ℤ result }
        ensures small { unsigned_abs result < 10 ^ 24 }
    {
        inst.fits();
        inst.lower(c, t).max(0) + self.taken[place(inst, c, t)]
    }
}

/// The place of resource `c` in period `t`.
fn place(inst: &Instance, c: u32, t: u32) -> usize
    requires resource { c < length inst.now.resource_names }
    requires from { 1 ≤ t }
    requires to { t ≤ inst.now.periods }
    ensures value { result ≡ band_place inst.now.periods c t }
    ensures within { result < length inst.now.resource_names * inst.now.periods }
{
    inst.fits();
    c as usize * inst.periods() as usize + (t as usize - 1)
}

/// The more that can be taken away by one load more.
fn more(taken: i128, load: Fixed) -> i128
    ensures { result ≡ int_max taken (pos 0 -ℤ load) }
{
    taken.max(-load.count())
}

/// The most that intervention `i` can take away.
fn taken_by(alloc: Global, inst: &Instance, i: u32) -> Result<Vec<i128>, AllocError>
    requires { i < length inst.now.names }
    ensures taken { IfOk result (λ row. AreByBand inst.now (λ c t. most_taken inst.now c t i) row.items) }
    ensures small { IfOk result (λ row. (k : ℕ) → unsigned_abs (slice_index_or row.items k (pos 0)) ≤ 10 ^ 20) }
{
    inst.fits();
    let mut row: Vec<i128> = vec![in alloc; 0; inst.resources() as usize
        * inst.periods() as usize]?;
    for cell in inst.workloads(i) {
        let k = place(inst, cell.resource, cell.period);
        row[k] = more(row[k], cell.load);
    }
    Ok(row)
}

/// Adds a row to the sums so far.
fn add_row(sums: &mut Vec<i128>, row: &[i128])
    requires each { length row.now ≡ length sums.old.items }
    requires sums { (k : ℕ) → unsigned_abs (slice_index_or sums.old.items k (pos 0)) ≤ 10 ^ 24 }
    requires row { (k : ℕ) → unsigned_abs (slice_index_or row.now k (pos 0)) ≤ 10 ^ 20 }
    ensures each { length sums.new.items ≡ length sums.old.items }
    ensures added { (k : ℕ) → k < length sums.old.items → slice_index_or sums.new.items k (pos 0)
        ≡ slice_index_or sums.old.items k (pos 0) +ℤ slice_index_or row.now k (pos 0) }
{
    for k in 0..sums.len() {
        sums[k] += row[k];
    }
}
