//! The instance of a file's rows.

ghost use Rattle.std.specs.Prelude.{◌≡◌, None, IfOk, map, string_bytes};
ghost use Rattle.json_grammar.specs.Tree as json;
ghost use Rattle.instance_model.specs.declared.limits.Limits as limit;
ghost use Rattle.instance_model.specs.View.{tables_of};
ghost use Rattle.instance_shape.specs.CrossFaults.{cross_fault};
ghost use Rattle.instance_shape.specs.FileTables.{tables};
ghost use Rattle.instance_shape.specs.Ranges.{IsSlack};
ghost use Rattle.instance_rows.specs.Answers.{Tells};
ghost use Rattle.instance_rows.specs.Grid.{order_of};
ghost use Rattle.instance_rows.specs.RowFaults.{rows_fault};
ghost use Rattle.instance_rows.specs.RowTables.{exclusion_of, rows_tables};
ghost use Rattle.instance_rows.specs.Sound.{AreSound};
ghost use Rattle.instance_rows.specs.Views.{AreRowsOf, rows_view, work_view};

use crate::checks::{check_bands, check_scenarios};
use crate::exclusions::exclusions;
use crate::fault::RowsFault;
use crate::fill::work_tables;
use crate::limits::{lower, upper};
use crate::rows::FileRows;
use crate::seasons::in_season;
use crate::works::orders;
use fixed_num::Fixed;
use instance_model::{Exclusion, Instance, Parts, RunRisks};
use std::alloc::{AllocError, Global};

/// The instance that the rows of a file define, or its first fault across the file. Each upper limit is raised and each
/// lower limit lowered by the slack, from 0 to 10^9 counts of 10^-12. Takes time in proportion to the rows and to the
/// starts and periods of the interventions, and memory beside the rows for the tables without the risks, which stay
/// where they are.
pub fn assemble(alloc: Global, rows: FileRows, slack: Fixed) -> Result<Instance, RowsFault>
    requires rows { (limits : limit.Limits) × ((root : json.Tree) × AreRowsOf limits root rows) }
    requires slack { IsSlack slack }

    // An instance only where there is no fault across the file, a fault only where it is the first; or want of memory.
    ensures told { (limits : limit.Limits) (root : json.Tree) → AreRowsOf limits root rows
        → Tells (cross_fault root) result }
    ensures tables { (limits : limit.Limits) (root : json.Tree) → AreRowsOf limits root rows
        → IfOk result (λ inst. inst ≡ tables slack root) }
{
    Ok(Instance::from_parts(alloc, parts(alloc, rows, slack)?)?)
}

/// The tables of sound rows, or the first fault across the file.
pub fn parts(alloc: Global, rows: FileRows, slack: Fixed) -> Result<Parts, RowsFault>
    requires { AreSound (rows_view rows) }
    ensures told { Tells (rows_fault (rows_view rows)) result }
    ensures tables { IfOk result (λ parts. tables_of parts ≡ rows_tables slack (rows_view rows)) }
{
    let checked = check(alloc, &rows)?;
    Ok(fill(alloc, rows, checked, slack)?)
}

/// What is found of rows without a fault across the file.
#[derive(Drop)]
struct Checked {
    /// By intervention the numbers of the lists of risks that its allowed runs take.
    orders: Vec<Vec<usize>>,
    excluded: Vec<Exclusion>,
}

/// Looks for the faults across a file, in their order.
fn check(alloc: Global, rows: &FileRows) -> Result<Checked, RowsFault>
    requires { AreSound (rows_view rows.now) }
    ensures told { Tells (rows_fault (rows_view rows.now)) result }
    ensures orders { IfOk result
        (λ checked. map (λ o. o.items) checked.orders.items
        ≡ map (λ w. order_of rows.now.periods (work_view w)) rows.now.works.items) }
    ensures excluded { IfOk result
        (λ checked. checked.excluded.items ≡ map (λ e. exclusion_of (rows_view rows.now) (map string_bytes e.items))
        rows.now.exclusion_words.items) }
{
    check_scenarios(rows)?;
    check_bands(alloc, rows)?;
    let orders = orders(alloc, rows)?;
    let excluded = exclusions(alloc, rows)?;
    Ok(Checked { orders, excluded })
}

/// The tables of rows without a fault across the file.
fn fill(alloc: Global, rows: FileRows, checked: Checked, slack: Fixed) -> Result<Parts, AllocError>
    requires sound { AreSound (rows_view rows) }
    requires none { rows_fault (rows_view rows) ≡ None }
    requires orders { map (λ o. o.items) checked.orders.items
        ≡ map (λ w. order_of rows.periods (work_view w)) rows.works.items }
    requires excluded { checked.excluded.items
        ≡ map (λ e. exclusion_of (rows_view rows) (map string_bytes e.items)) rows.exclusion_words.items }
    ensures tables { IfOk result (λ parts. tables_of parts ≡ rows_tables slack (rows_view rows)) }
{
    let upper = upper(alloc, rows.bands.as_slice(), slack)?;
    let lower = lower(alloc, rows.bands.as_slice(), slack)?;
    let in_season = in_season(alloc, rows.periods, rows.season_periods.as_slice())?;
    let works = rows.works;
    let resources = rows.resources;
    let filled = work_tables(alloc, rows.periods, &resources, works, checked.orders)?;
    Ok(Parts {
        periods: rows.periods,
        alpha: rows.alpha,
        quantile: rows.quantile,
        scenarios: rows.scenarios,
        resources,
        upper,
        lower,
        seasons: rows.seasons,
        in_season,
        interventions: rows.interventions,
        delta: filled.delta,
        exclusions: rows.exclusions,
        excluded: checked.excluded,
        loads: filled.loads,
        risks: RunRisks::AsRead(filled.risks),
        rounded: rows.rounded,
    })
}
