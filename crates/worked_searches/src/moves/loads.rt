//! Loads of one intervention, worked out by hand.
ghost use Rattle.std.specs.Prelude.{◌≡◌, ◌<◌, length};
ghost use Rattle.resource_bands.specs.BoardLoads.{kept_row};

use crate::moves::samples::loaded;
use instance_model::Instance;
use resource_bands::{Loads, StartChange};
use small_instances::are_allowed;
use std::alloc::{AllocError, Global};
use std::test::Fail;

/// The loads in the two periods, and the violation.
fn figures(loads: &Loads) -> [i128; 3]
    requires resource { 0 < length loads.now.loads }
    requires periods { length (kept_row loads.now 0) ≡ 2 }
{
    [loads.load(0, 1), loads.load(0, 2), loads.violation()]
}

/// The figures as the one run is on board from period 1, goes off, and on again from period 2; none where a start isn't
/// allowed.
fn figures_of_changes(alloc: Global, inst: &Instance) -> Result<Option<[[i128; 3]; 3]>, AllocError>
    requires intervention { length inst.now.names ≡ 1 }
    requires resource { length inst.now.resource_names ≡ 1 }
    requires periods { inst.now.periods ≡ 2 }
{
    if !are_allowed(inst, &[1]) || !inst.allowed(0, 2) {
        return Ok(None);
    }
    let mut loads = Loads::make(alloc, inst, &[1])?;
    let opening = figures(&loads);
    loads.take_run(inst, 0);
    let idle = figures(&loads);
    loads.add_run(inst, 0, 2);
    Ok(Some([opening, idle, figures(&loads)]))
}

#[test]
fn a_run_goes_off_board_and_on(rt: HostRuntime) -> Result<(), Fail> {
    let inst = loaded(rt.alloc())?;
    if inst.interventions() != 1 || inst.resources() != 1 || inst.periods() != 2 {
        panic!(rt; "another instance");
    }
    let wanted = [
        // 2 above in period 1, and 2 below in the idle period 2
        [7, 0, 4],
        // 1 below in period 1, and 2 in period 2
        [0, 0, 3],
        // 1 below in the idle period 1
        [0, 2, 1],
    ];
    assert_eq!(rt; figures_of_changes(rt.alloc(), &inst)?, Some(wanted));
    Ok(())
}

/// Whether the load is too high after the one run is moved from period 2 to period 1, by more than 1 and by more than
/// 2,
/// and whether it is where the run stays; none where a start isn't allowed.
fn looked_up(alloc: Global, inst: &Instance) -> Result<Option<[bool; 3]>, AllocError>
    requires { length inst.now.names ≡ 1 }
{
    if !are_allowed(inst, &[2]) || !inst.allowed(0, 1) || !inst.allowed(0, 2) {
        return Ok(None);
    }
    let loads = Loads::make(alloc, inst, &[2])?;
    let back = StartChange {
        i: 0,
        from: 2,
        to: 1,
    };
    let stays = StartChange {
        i: 0,
        from: 2,
        to: 2,
    };
    Ok(Some([
        loads.is_above_after(inst, back, back, 1),
        loads.is_above_after(inst, back, back, 2),
        loads.is_above_after(inst, stays, stays, 0),
    ]))
}

#[test]
fn a_moved_run_is_looked_up(rt: HostRuntime) -> Result<(), Fail> {
    let inst = loaded(rt.alloc())?;
    if inst.interventions() != 1 {
        panic!(rt; "another instance");
    }
    // 2 above in period 1, and nothing in period 2
    assert_eq!(rt; looked_up(rt.alloc(), &inst)?, Some([true, false, false]));
    Ok(())
}
