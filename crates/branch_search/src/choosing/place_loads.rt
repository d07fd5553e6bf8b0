//! The loads of an instance by resource and period, so that the loads on one band stand together.
ghost use Rattle.std.specs.Prelude.{◌<◌, length};

use fixed_num::Fixed;
use instance_model::Instance;
use std::alloc::{AllocError, Global};

/// The number of a resource and a period.
pub(crate) fn place_of(inst: &Instance, c: u32, t: u32) -> usize {
    c as usize * (inst.periods() as usize + 1) + t as usize
}

/// How many such numbers there are, with some that stand for none.
pub(crate) fn places(inst: &Instance) -> usize {
    inst.resources() as usize * (inst.periods() as usize + 1)
}

/// The load that intervention `i` adds at a start in the place of a resource and a period.
#[derive(Clone, Copy)]
pub(crate) struct PlaceCell {
    pub(crate) place: usize,
    pub(crate) i: u32,
    pub(crate) start: u32,
    pub(crate) load: Fixed,
}

/// Appends the loads of intervention `i`.
fn push_loads(cells: &mut Vec<PlaceCell>, inst: &Instance, i: u32) -> Result<(), AllocError>
    requires { i < length inst.now.names }
{
    for cell in inst.workloads(i) {
        cells.push(PlaceCell {
            place: place_of(inst, cell.resource, cell.period),
            i,
            start: cell.start,
            load: cell.load,
        })?;
    }
    Ok(())
}

/// The loads of all interventions.
pub(crate) fn loads_of_all(alloc: Global, inst: &Instance) -> Result<Vec<PlaceCell>, AllocError> {
    let mut cells = Vec::new(alloc);
    for i in 0..inst.interventions() {
        push_loads(&mut cells, inst, i)?;
    }
    Ok(cells)
}

/// The load at a start, of loads of one intervention in one place by start.
pub(crate) fn load_in(cells: &[PlaceCell], start: u32) -> i128 {
    let k = cells.partition_point(|cell| cell.start < start);
    match cells.get(k) {
        Some(cell) => if cell.start == start {
            cell.load.count()
        } else {
            0
        },
        None => 0,
    }
}
