//! Seasons are put out.
ghost use Rattle.std.specs.Prelude.{◌≡◌, ◌+◌, ◌<◌, ◌≤◌, [], ◌∷◌, cond, length, map, Some, slice_index_or};
ghost use Rattle.json_grammar.specs.laws.Value.{field};
ghost use Rattle.json_grammar.specs.laws.Spelling.{spell};
ghost use Rattle.instance_model.specs.Tables.{in_season_of};
ghost use Rattle.instance_writer.specs.text.Written.{whole_number, object_of, named, season_value};
ghost use Rattle.instance_writer.specs.Steps.{fields_text, values_text, is_first_after};

use crate::marks::{put_key, put_whole};
use crate::sink::Sink;
use instance_model::Instance;

/// All seasons, by name.
pub fn put_seasons<S: Sink>(inst: &Instance, sink: &mut S)
    requires ready { S.IsReady sink.old }
    ensures ready { S.IsReady sink.new }
    ensures text { S.Takes (spell (object_of (named inst.now.season_names (λ q. Some (season_value inst.now q)))))
        sink.old sink.new }
{
    sink.put(b"{");
    let mut first = true;
    for q in 0..inst.seasons() {
        put_season(inst, q, first, sink);
        first = false;
    }
    sink.put(b"}");
}

fn put_season<S: Sink>(inst: &Instance, q: u32, first: bool, sink: &mut S)
    requires ready { S.IsReady sink.old }
    requires season { q < length inst.now.season_names }
    ensures ready { S.IsReady sink.new }
    ensures text { S.Takes
        (fields_text first (field (slice_index_or inst.now.season_names q []) (season_value inst.now q) ∷ []))
        sink.old sink.new }
{
    put_key(first, inst.season_name(q).as_bytes(), sink);
    put_season_periods(inst, q, sink);
}

fn put_season_periods<S: Sink>(inst: &Instance, q: u32, sink: &mut S)
    requires ready { S.IsReady sink.old }
    requires season { q < length inst.now.season_names }
    ensures ready { S.IsReady sink.new }
    ensures text { S.Takes (spell (season_value inst.now q)) sink.old sink.new }
{
    sink.put(b"[");
    let mut first = true;
    for k in 0..inst.periods() {
        first = put_season_period(inst, q, k + 1, first, sink);
    }
    sink.put(b"]");
}

/// The period, if it belongs to the season. Says whether the next one would be the first.
fn put_season_period<S: Sink>(inst: &Instance, q: u32, t: u32, first: bool, sink: &mut S) -> bool
    requires ready { S.IsReady sink.old }
    requires season { q < length inst.now.season_names }
    requires from { 1 ≤ t }
    requires to { t ≤ inst.now.periods }
    ensures ready { S.IsReady sink.new }
    ensures text { S.Takes (values_text first (map whole_number (cond (in_season_of inst.now q t) (t ∷ []) [])))
        sink.old sink.new }
    ensures first { result ≡ is_first_after first (cond (in_season_of inst.now q t) (t ∷ []) []) }
{
    if !inst.in_season(q, t) {
        return first;
    }
    put_whole(first, t, sink);
    false
}
