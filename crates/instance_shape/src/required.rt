//! The required keys of an object.

ghost use Rattle.std.specs.Prelude.{◌≡◌, cond, Some};
ghost use Rattle.instance_shape.specs.Shape.{required, late_keys};
ghost use Rattle.instance_shape.specs.Keys.{has_key, by_text, text_of as key_text};
ghost use Rattle.instance_shape.specs.ShapeFaults.{first_missing};
ghost use Rattle.instance_shape.specs.Seen.{texts_of};
ghost use Rattle.instance_shape.specs.declared.spot.Spot.TheVariants as spots;

use crate::fault::Known;
use crate::spot::Spot;
use ordered_keys::KeySet;

/// How a required key is written.
pub fn text_of(known: Known) -> &'static str
    ensures { result.now ≡ key_text known }
{
    match known {
        Known::Resources => "Resources",
        Known::Seasons => "Seasons",
        Known::Interventions => "Interventions",
        Known::Exclusions => "Exclusions",
        Known::T => "T",
        Known::ScenariosNumber => "Scenarios_number",
        Known::Quantile => "Quantile",
        Known::Alpha => "Alpha",
        Known::Max => "max",
        Known::Min => "min",
        Known::Tmax => "tmax",
        Known::Delta => "Delta",
        Known::Workload => "workload",
        Known::Risk => "risk",
    }
}

/// Whether an object has had a key.
fn has(seen: &KeySet, key: &str) -> bool
    ensures { result ≡ has_key (texts_of seen.now.added.keys) (by_text key.now) }
{
    seen.contains(key)
}

/// The key, if an object hasn't had it, and else what is missing after it.
fn missing_or(seen: &KeySet, key: &str, known: Known, after: Option<Known>) -> Option<Known>
    ensures { result ≡ cond (has_key (texts_of seen.now.added.keys) (by_text key.now)) after (Some known) }
{
    if has(seen, key) { after } else { Some(known) }
}

/// The first of the later required keys that the root lacks.
fn missing_late(seen: &KeySet) -> Option<Known>
    ensures { result ≡ first_missing late_keys (texts_of seen.now.added.keys) }
{
    let alpha = missing_or(seen, "Alpha", Known::Alpha, None);
    let quantile = missing_or(seen, "Quantile", Known::Quantile, alpha);
    let scenarios = missing_or(seen, "Scenarios_number", Known::ScenariosNumber, quantile);
    missing_or(seen, "T", Known::T, scenarios)
}

/// The first required key that the root lacks.
fn missing_in_root(seen: &KeySet) -> Option<Known>
    ensures { result ≡ first_missing (required spots.Root) (texts_of seen.now.added.keys) }
{
    let exclusions = missing_or(seen, "Exclusions", Known::Exclusions, missing_late(seen));
    let interventions = missing_or(seen, "Interventions", Known::Interventions, exclusions);
    let seasons = missing_or(seen, "Seasons", Known::Seasons, interventions);
    missing_or(seen, "Resources", Known::Resources, seasons)
}

/// The first required key that a resource lacks.
fn missing_in_resource(seen: &KeySet) -> Option<Known>
    ensures { result ≡ first_missing (required spots.Resource) (texts_of seen.now.added.keys) }
{
    let min = missing_or(seen, "min", Known::Min, None);
    missing_or(seen, "max", Known::Max, min)
}

/// The first required key that an intervention lacks.
fn missing_in_intervention(seen: &KeySet) -> Option<Known>
    ensures { result ≡ first_missing (required spots.Intervention) (texts_of seen.now.added.keys) }
{
    let risk = missing_or(seen, "risk", Known::Risk, None);
    let workload = missing_or(seen, "workload", Known::Workload, risk);
    let delta = missing_or(seen, "Delta", Known::Delta, workload);
    missing_or(seen, "tmax", Known::Tmax, delta)
}

/// The first required key that the object at a spot lacks, given the keys that it has.
pub fn missing_key(spot: Spot, seen: &KeySet) -> Option<Known>
    ensures { result ≡ first_missing (required spot) (texts_of seen.now.added.keys) }
{
    match spot {
        Spot::Root => missing_in_root(seen),
        Spot::Resource => missing_in_resource(seen),
        Spot::Intervention => missing_in_intervention(seen),
        _ => None,
    }
}
