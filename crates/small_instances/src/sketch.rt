//! Instances made by hand from small arrays.

ghost use Rattle.std.specs.Prelude.{◌≡◌, length, map, string_bytes, IfOk, IsTrue};
ghost use Rattle.instance_model.specs.View.{tables_of};
ghost use Rattle.small_instances.specs.Sketches.{names_of, cell_of, is_fitting};

use fixed_num::Fixed;
use instance_model::{Exclusion, Instance, LoadCell, Parts, RunRisks};
use ordered_keys::TextSet;
use std::alloc::{AllocError, Global};
use std::marker::Model;

/// An instance whose things are named N1, N2 and N3, each kind by itself: contracts see it as its tables.
#[derive(Drop)]
pub struct Sketch<'a> {
    pub periods: u32,
    /// In millionths.
    pub alpha: u32,
    pub quantile: u32,
    /// By period.
    pub scenarios: &'a [u32],
    pub resources: usize,
    /// Limits by resource, then period, in counts of 10^-12.
    pub upper: &'a [i64],
    pub lower: &'a [i64],
    pub seasons: usize,
    /// By season, then period.
    pub in_season: &'a [bool],
    /// Durations by intervention, then start.
    pub delta: &'a [&'a [u32]],
    pub excluded: &'a [Exclusion],
    /// By intervention: start, period, resource and count, ascending.
    pub loads: &'a [&'a [(u32, u32, u32, i64)]],
    /// By intervention, allowed start, period of the run, scenario.
    pub risks: &'a [i64],
    /// By intervention, allowed start, period of the run.
    pub soft: &'a [bool],
}

impl<'a> Model for Sketch<'a> {
    ghost use Rattle.std.specs.Prelude.{length, map};
    ghost use Rattle.instance_model.specs.Tables.{Tables};
    ghost use Rattle.small_instances.specs.Sketches.{names_of, cell_of};

    ghost Value = { Tables };

    ghost view = { λ s. record {
      periods = s.periods;
      alpha = s.alpha;
      quantile = s.quantile;
      scenarios = s.scenarios.now;
      resource_names = names_of s.resources;
      upper = s.upper.now;
      lower = s.lower.now;
      season_names = names_of s.seasons;
      in_season = s.in_season.now;
      names = names_of (length s.delta.now);
      delta = map (λ row. row.now) s.delta.now;
      exclusion_names = names_of (length s.excluded.now);
      excluded = s.excluded.now;
      loads = map (λ row. map cell_of row.now) s.loads.now;
      risks = s.risks.now;
      soft = s.soft.now;
      rounded = 0;
    } };
}

/// The first of three names.
fn names(alloc: Global, count: usize) -> Result<TextSet, AllocError>
    ensures { IfOk result (λ names. map string_bytes names.texts.keys ≡ names_of count) }
{
    let mut names = TextSet::new(alloc);
    if count == 0 {
        return Ok(names);
    }
    names.add(String::from_str(alloc, "N1")?)?;
    if count == 1 {
        return Ok(names);
    }
    names.add(String::from_str(alloc, "N2")?)?;
    if count == 2 {
        return Ok(names);
    }
    names.add(String::from_str(alloc, "N3")?)?;
    Ok(names)
}

fn limits(alloc: Global, counts: &[i64]) -> Result<Vec<i128>, AllocError>
    ensures { IfOk result (λ limits. limits.items ≡ counts.now) }
{
    let mut limits = Vec::new(alloc);
    for count in counts {
        limits.push(*count as i128)?;
    }
    Ok(limits)
}

fn risks(alloc: Global, counts: &[i64]) -> Result<Vec<Fixed>, AllocError>
    ensures { IfOk result (λ risks. risks.items ≡ counts.now) }
{
    let mut risks = Vec::new(alloc);
    for count in counts {
        risks.push(Fixed::from(*count))?;
    }
    Ok(risks)
}

fn cells(alloc: Global, works: &[(u32, u32, u32, i64)]) -> Result<Vec<LoadCell>, AllocError>
    ensures { IfOk result (λ cells. cells.items ≡ map cell_of works.now) }
{
    let mut cells = Vec::new(alloc);
    for (start, period, resource, count) in works {
        cells.push(LoadCell {
            start: *start,
            period: *period,
            resource: *resource,
            load: Fixed::from(*count),
        })?;
    }
    Ok(cells)
}

fn cell_rows(
    alloc: Global,
    rows: &[&[(u32, u32, u32, i64)]],
) -> Result<Vec<Vec<LoadCell>>, AllocError>
    ensures { IfOk result (λ v. map (λ cells. cells.items) v.items ≡ map (λ row. map cell_of row.now) rows.now) }
{
    let mut loads = Vec::new(alloc);
    for row in rows {
        loads.push(cells(alloc, row)?)?;
    }
    Ok(loads)
}

fn duration_rows(alloc: Global, rows: &[&[u32]]) -> Result<Vec<Vec<u32>>, AllocError>
    ensures { IfOk result (λ v. map (λ ds. ds.items) v.items ≡ map (λ row. row.now) rows.now) }
{
    let mut delta = Vec::new(alloc);
    for row in rows {
        delta.push(row.to_vec(alloc)?)?;
    }
    Ok(delta)
}

/// The names of all things.
#[derive(Drop)]
struct NameSets {
    resources: TextSet,
    seasons: TextSet,
    interventions: TextSet,
    exclusions: TextSet,
}

fn all_names(alloc: Global, sketch: &Sketch) -> Result<NameSets, AllocError>
    ensures resources { IfOk result
        (λ names. map string_bytes names.resources.texts.keys ≡ sketch.now.resource_names) }
    ensures seasons { IfOk result (λ names. map string_bytes names.seasons.texts.keys ≡ sketch.now.season_names) }
    ensures interventions { IfOk result (λ names. map string_bytes names.interventions.texts.keys ≡ sketch.now.names) }
    ensures exclusions { IfOk result
        (λ names. map string_bytes names.exclusions.texts.keys ≡ sketch.now.exclusion_names) }
{
    Ok(NameSets {
        resources: names(alloc, sketch.resources)?,
        seasons: names(alloc, sketch.seasons)?,
        interventions: names(alloc, sketch.delta.len())?,
        exclusions: names(alloc, sketch.excluded.len())?,
    })
}

/// The tables of a sketch as parts.
fn parts(alloc: Global, sketch: &Sketch) -> Result<Parts, AllocError>
    ensures tables { IfOk result (λ parts. tables_of parts ≡ sketch.now) }
{
    let names = all_names(alloc, sketch)?;
    Ok(Parts {
        periods: sketch.periods,
        alpha: sketch.alpha,
        quantile: sketch.quantile,
        scenarios: sketch.scenarios.to_vec(alloc)?,
        upper: limits(alloc, sketch.upper)?,
        lower: limits(alloc, sketch.lower)?,
        in_season: sketch.in_season.to_vec(alloc)?,
        delta: duration_rows(alloc, sketch.delta)?,
        excluded: sketch.excluded.to_vec(alloc)?,
        loads: cell_rows(alloc, sketch.loads)?,
        risks: RunRisks::InOrder {
            numbers: risks(alloc, sketch.risks)?,
            soft: sketch.soft.to_vec(alloc)?,
        },
        resources: names.resources,
        seasons: names.seasons,
        interventions: names.interventions,
        exclusions: names.exclusions,
        rounded: 0,
    })
}

/// The instance of a sketch that fits.
pub fn instance(alloc: Global, sketch: &Sketch) -> Result<Instance, AllocError>
    requires { IsTrue (is_fitting sketch.now) }
    ensures { IfOk result (λ inst. inst ≡ sketch.now) }
{
    let parts = parts(alloc, sketch)?;
    Instance::from_parts(alloc, parts)
}
