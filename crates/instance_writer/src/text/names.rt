//! The names of an instance, which are texts without control bytes.

ghost use Rattle.std.specs.Prelude.{All};
ghost use Rattle.std.specs.Str.{IsUtf8};
ghost use Rattle.instance_writer.specs.text.Conditions.{HasSpellableNames};

use instance_model::Instance;

/// A text is UTF-8.
fn is_text(text: &str)
    ensures { IsUtf8 text.now }
{
    let _ = text;
}

fn resources_are_text(inst: &Instance)
    ensures { All IsUtf8 inst.now.resource_names }
{
    for c in 0..inst.resources() {
        is_text(inst.resource_name(c));
    }
}

fn seasons_are_text(inst: &Instance)
    ensures { All IsUtf8 inst.now.season_names }
{
    for q in 0..inst.seasons() {
        is_text(inst.season_name(q));
    }
}

fn interventions_are_text(inst: &Instance)
    ensures { All IsUtf8 inst.now.names }
{
    for i in 0..inst.interventions() {
        is_text(inst.name(i));
    }
}

fn exclusions_are_text(inst: &Instance)
    ensures { All IsUtf8 inst.now.exclusion_names }
{
    for e in 0..inst.exclusions() {
        is_text(inst.exclusion_name(e));
    }
}

/// The names of an instance are UTF-8 without control bytes, which each writer of its text may rely on.
pub fn names_are_spellable(inst: &Instance)
    ensures { HasSpellableNames inst.now }
{
    inst.fits();
    resources_are_text(inst);
    seasons_are_text(inst);
    interventions_are_text(inst);
    exclusions_are_text(inst);
}
