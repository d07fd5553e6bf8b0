//! Exclusions are put out.
ghost use Rattle.std.specs.Prelude.{◌<◌, [], ◌∷◌, length, Some, slice_index_or};
ghost use Rattle.json_grammar.specs.laws.Value.{field};
ghost use Rattle.json_grammar.specs.laws.Spelling.{spell};
ghost use Rattle.instance_writer.specs.text.Written.{object_of, named, exclusion_value};
ghost use Rattle.instance_writer.specs.Steps.{fields_text};

use crate::marks::{put_key, put_text};
use crate::sink::Sink;
use instance_model::Instance;

/// All exclusions, by name.
pub fn put_exclusions<S: Sink>(inst: &Instance, sink: &mut S)
    requires ready { S.IsReady sink.old }
    ensures ready { S.IsReady sink.new }
    ensures text { S.Takes
        (spell (object_of (named inst.now.exclusion_names (λ e. Some (exclusion_value inst.now e)))))
        sink.old sink.new }
{
    sink.put(b"{");
    let mut first = true;
    for e in 0..inst.exclusions() {
        put_exclusion(inst, e, first, sink);
        first = false;
    }
    sink.put(b"}");
}

fn put_exclusion<S: Sink>(inst: &Instance, e: u32, first: bool, sink: &mut S)
    requires ready { S.IsReady sink.old }
    requires number { e < length inst.now.exclusion_names }
    ensures ready { S.IsReady sink.new }
    ensures text { S.Takes
        (fields_text first (field (slice_index_or inst.now.exclusion_names e []) (exclusion_value inst.now e) ∷ []))
        sink.old sink.new }
{
    put_key(first, inst.exclusion_name(e).as_bytes(), sink);
    put_exclusion_words(inst, e, sink);
}

/// The names of the two interventions and of the season.
fn put_exclusion_words<S: Sink>(inst: &Instance, e: u32, sink: &mut S)
    requires ready { S.IsReady sink.old }
    requires number { e < length inst.now.exclusion_names }
    ensures ready { S.IsReady sink.new }
    ensures text { S.Takes (spell (exclusion_value inst.now e)) sink.old sink.new }
{
    let exclusion = inst.exclusion(e);
    sink.put(b"[");
    put_text(true, inst.name(exclusion.first).as_bytes(), sink);
    put_text(false, inst.name(exclusion.second).as_bytes(), sink);
    put_text(false, inst.season_name(exclusion.season).as_bytes(), sink);
    sink.put(b"]");
}
