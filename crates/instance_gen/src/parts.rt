//! The tables of the drawn instance: what is drawn, and what the count of interventions gives.

ghost use Rattle.std.specs.Prelude.{◌≡◌, ◌+◌, ◌*◌, ◌<◌, ◌≤◌, ◌/◌, ◌++◌, map, string_bytes, IfOk, OnOk, decimal, codes};
ghost use Rattle.std.specs.Prelude.{nat_le, ◌&&◌};
ghost use Rattle.instance_model.specs.View.{tables_of};
ghost use Rattle.instance_gen.specs.Drawn.{drawn_exclusions, drawn_tables, level_limits, level_scenarios};
ghost use Rattle.instance_gen.specs.Drawn.{numbered_names, season_from};

use crate::draws::{SCENARIOS, draw_interventions, whole};
use instance_model::{Exclusion, Instance, Parts, RunRisks};
use ordered_keys::TextSet;
use std::alloc::{AllocError, Global};

/// The number of the last period.
const PERIODS: u32 = 53;

/// A letter and a number.
fn numbered_name(alloc: Global, letter: &str, number: u32) -> Result<String, AllocError>
    ensures { IfOk result (λ name. string_bytes name ≡ letter.now ++ decimal number) }
{
    format!(in alloc; "{letter}{number}")
}

/// A letter and the numbers from 1 to `n`.
fn numbered_names(alloc: Global, letter: &str, n: u32) -> Result<TextSet, AllocError>
    ensures { IfOk result (λ names. map string_bytes names.texts.keys ≡ numbered_names letter.now n) }
{
    let mut names = TextSet::new(alloc);
    for k in 0..n {
        let name = numbered_name(alloc, letter, k + 1)?;
        names.add(name)?;
    }
    Ok(names)
}

/// The same number of scenarios in each period.
fn scenarios(alloc: Global, periods: u32) -> Result<Vec<u32>, AllocError>
    ensures { IfOk result (λ scenarios. scenarios.items ≡ level_scenarios periods 8) }
{
    let scenarios = vec![in alloc; SCENARIOS; periods as usize]?;
    Ok(scenarios)
}

/// Adds the same limit for each period.
fn add_limits(limits: &mut Vec<i128>, periods: u32, limit: u32) -> Result<(), AllocError>
    requires { limit < 1000 }
    ensures { OnOk result (limits.new.items ≡ limits.old.items ++ level_limits periods limit) }
{
    let count = whole(limit).count();
    for k in 0..periods {
        limits.push(count)?;
    }
    Ok(())
}

/// The limits of the first resource and of the second.
fn limits(alloc: Global, first: u32, second: u32) -> Result<Vec<i128>, AllocError>
    requires first { first < 1000 }
    requires second { second < 1000 }
    ensures { IfOk result (λ limits. limits.items ≡ level_limits 53 first ++ level_limits 53 second) }
{
    let mut limits = Vec::new(alloc);
    add_limits(&mut limits, PERIODS, first)?;
    add_limits(&mut limits, PERIODS, second)?;
    Ok(limits)
}

/// Whether period `t` is one from `from` to `to`.
fn is_from(t: u32, from: u32, to: u32) -> bool
    ensures { result ≡ (nat_le from t && nat_le t to) }
{
    from <= t && t <= to
}

/// Adds, for each period, whether it is one from `from` to `to`.
fn add_season(in_season: &mut Vec<bool>, periods: u32, from: u32, to: u32) -> Result<(), AllocError>
    ensures { OnOk result (in_season.new.items ≡ in_season.old.items ++ season_from periods from to) }
{
    for k in 0..periods {
        in_season.push(is_from(k + 1, from, to))?;
    }
    Ok(())
}

/// The first `n` exclusions.
fn exclusions(alloc: Global, n: u32) -> Result<Vec<Exclusion>, AllocError>
    requires { n < 1000 }
    ensures { IfOk result (λ excluded. excluded.items ≡ drawn_exclusions n) }
{
    let mut excluded = Vec::new(alloc);
    for k in 0..n {
        excluded.push(Exclusion {
            first: 2 * k,
            second: 2 * k + 1,
            season: k % 2,
        })?;
    }
    Ok(excluded)
}

/// The names of all things.
#[derive(Drop)]
struct NameSets {
    resources: TextSet,
    seasons: TextSet,
    interventions: TextSet,
    exclusions: TextSet,
}

fn all_names(alloc: Global, n: u32) -> Result<NameSets, AllocError>
    ensures resources { IfOk result
        (λ names. map string_bytes names.resources.texts.keys ≡ numbered_names (codes "c") 2) }
    ensures seasons { IfOk result (λ names. map string_bytes names.seasons.texts.keys ≡ numbered_names (codes "s") 2) }
    ensures interventions { IfOk result
        (λ names. map string_bytes names.interventions.texts.keys ≡ numbered_names (codes "I") n) }
    ensures exclusions { IfOk result
        (λ names. map string_bytes names.exclusions.texts.keys ≡ numbered_names (codes "E") (n / 4)) }
{
    Ok(NameSets {
        resources: numbered_names(alloc, "c", 2)?,
        seasons: numbered_names(alloc, "s", 2)?,
        interventions: numbered_names(alloc, "I", n)?,
        exclusions: numbered_names(alloc, "E", n / 4)?,
    })
}

/// The periods of both seasons.
fn seasons(alloc: Global) -> Result<Vec<bool>, AllocError>
    ensures { IfOk result (λ in_season. in_season.items ≡ season_from 53 1 13 ++ season_from 53 27 39) }
{
    let mut in_season = Vec::new(alloc);
    add_season(&mut in_season, PERIODS, 1, 13)?;
    add_season(&mut in_season, PERIODS, 27, 39)?;
    Ok(in_season)
}

/// What the count of interventions gives, but for the names.
#[derive(Drop)]
struct Levels {
    scenarios: Vec<u32>,
    upper: Vec<i128>,
    lower: Vec<i128>,
    in_season: Vec<bool>,
    excluded: Vec<Exclusion>,
}

fn levels_of(alloc: Global, n: u32) -> Result<Levels, AllocError>
    requires { n ≤ 200 }
    ensures scenarios { IfOk result (λ levels. levels.scenarios.items ≡ level_scenarios 53 8) }
    ensures upper { IfOk result
        (λ levels. levels.upper.items ≡ level_limits 53 (n / 2 + 9) ++ level_limits 53 (n / 4 + 5)) }
    ensures lower { IfOk result (λ levels. levels.lower.items ≡ level_limits 53 0 ++ level_limits 53 0) }
    ensures in_season { IfOk result
        (λ levels. levels.in_season.items ≡ season_from 53 1 13 ++ season_from 53 27 39) }
    ensures excluded { IfOk result (λ levels. levels.excluded.items ≡ drawn_exclusions (n / 4)) }
{
    Ok(Levels {
        scenarios: scenarios(alloc, PERIODS)?,
        upper: limits(alloc, n / 2 + 9, n / 4 + 5)?,
        lower: limits(alloc, 0, 0)?,
        in_season: seasons(alloc)?,
        excluded: exclusions(alloc, n / 4)?,
    })
}

/// The tables as parts.
fn parts(alloc: Global, seed: u64, n: u32) -> Result<Parts, AllocError>
    requires { n ≤ 200 }
    ensures tables { IfOk result (λ parts. tables_of parts ≡ drawn_tables seed n) }
{
    let names = all_names(alloc, n)?;
    let levels = levels_of(alloc, n)?;
    let draws = draw_interventions(alloc, seed, n)?;
    let soft = vec![in alloc; false; draws.risks.as_slice().len() / SCENARIOS as usize]?;
    Ok(Parts {
        periods: PERIODS,
        alpha: 500_000,
        quantile: 950_000,
        scenarios: levels.scenarios,
        resources: names.resources,
        upper: levels.upper,
        lower: levels.lower,
        seasons: names.seasons,
        in_season: levels.in_season,
        interventions: names.interventions,
        delta: draws.delta,
        exclusions: names.exclusions,
        excluded: levels.excluded,
        loads: draws.loads,
        risks: RunRisks::InOrder {
            numbers: draws.risks,
            soft,
        },
        rounded: 0,
    })
}

/// The instance of `n` interventions, from 1 to 200, that is drawn from `seed`.
pub fn drawn_instance(alloc: Global, seed: u64, n: u32) -> Result<Instance, AllocError>
    requires some { 1 ≤ n }
    requires few { n ≤ 200 }
    ensures { IfOk result (λ inst. inst ≡ drawn_tables seed n) }
{
    let parts = parts(alloc, seed, n)?;
    Instance::from_parts(alloc, parts)
}
