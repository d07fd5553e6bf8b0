//! Scores of what is on board, worked out by hand.
ghost use Rattle.std.specs.Prelude.{◌≡◌, ◌<◌, None, Some, length, slice_set, IsSome, IsTrue};
ghost use Rattle.instance_model.specs.Tables.{is_allowed};
ghost use Rattle.instance_model.specs.Plans.{start_of};
ghost use Rattle.scenario_rows.specs.RiskStates.{IsOver};

use crate::moves::samples::risky;
use fixed_num::Steps;
use instance_model::Instance;
use quantile_index::{FlatRow, Row, TreeRow};
use scenario_rows::RiskRows;
use small_instances::are_allowed;
use std::alloc::{AllocError, Global};
use std::marker::Brand;
use std::process::Abort;
use std::sync::ledger::{Blank, Ledger};
use std::test::Fail;

/// The score once intervention `i` is on board at start `s`.
fn added<R: Row, L: Ledger>(
    rows: &mut RiskRows<R>,
    inst: &Instance,
    i: u32,
    s: u32,
    steps: &mut Steps<L>,
) -> i128
    requires over { IsOver inst.now rows.old }
    requires number { i < length inst.now.names }
    requires not_on_board { start_of rows.old.board i ≡ None }
    requires allowed { IsTrue (is_allowed inst.now i s) }
    ensures over { IsOver inst.now rows.new }
    ensures board { rows.new.board ≡ slice_set rows.old.board i (Some s) }
{
    rows.add_run(inst, i, s, steps);
    rows.score()
}

/// The score once intervention `i` is off board.
fn taken<R: Row, L: Ledger>(
    rows: &mut RiskRows<R>,
    inst: &Instance,
    i: u32,
    steps: &mut Steps<L>,
) -> i128
    requires over { IsOver inst.now rows.old }
    requires number { i < length inst.now.names }
    requires on_board { IsSome (start_of rows.old.board i) }
    ensures over { IsOver inst.now rows.new }
    ensures board { rows.new.board ≡ slice_set rows.old.board i None }
{
    rows.take_run(inst, i, steps);
    rows.score()
}

/// The scores as both are on board from period 1, the first goes off, on again from period 2, both go off one after the
/// other, and the first goes on from period 1; none where a start isn't allowed.
fn scores<R: Row, L: Ledger>(
    alloc: Global,
    inst: &Instance,
    steps: &mut Steps<L>,
) -> Result<Option<[i128; 6]>, AllocError> {
    if inst.interventions() != 2 || !inst.allowed(0, 1) || !inst.allowed(0, 2) {
        return Ok(None);
    }
    if !are_allowed(inst, &[1, 1]) {
        return Ok(None);
    }
    let mut rows = RiskRows::<R>::make(alloc, inst, &[1, 1])?;
    Ok(Some([
        rows.score(),
        taken(&mut rows, inst, 0, steps),
        added(&mut rows, inst, 0, 2, steps),
        taken(&mut rows, inst, 1, steps),
        taken(&mut rows, inst, 0, steps),
        added(&mut rows, inst, 0, 1, steps),
    ]))
}

fn gives_the_scores<R: Row, L: Ledger>(
    rt: &impl Abort,
    alloc: Global,
    blank: Blank,
) -> Result<(), Fail>
    requires name { blank.name ≡ L.name }
    requires parts { blank.parts ≡ L.parts }
    requires one { blank.parts ≡ 1 }
{
    let mut steps = Steps::<L>::zero(blank);
    let inst = risky(alloc)?;
    let wanted = [2_666_666, 2_750_000, 3_000_000, 3_250_000, 0, -83_334];
    assert_eq!(rt; scores::<R, L>(alloc, &inst, &mut steps)?, Some(wanted));
    Ok(())
}

#[test]
fn flat_rows_give_the_scores(rt: HostRuntime) -> Result<(), Fail> {
    gives_the_scores::<FlatRow, Brand>(&rt, rt.alloc(), Blank::new(1))
}

#[test]
fn tree_rows_give_the_scores(rt: HostRuntime) -> Result<(), Fail> {
    gives_the_scores::<TreeRow, Brand>(&rt, rt.alloc(), Blank::new(1))
}
