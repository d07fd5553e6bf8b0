//! Resources are put out.
ghost use Rattle.std.specs.Prelude.{◌+◌, ◌<◌, [], ◌∷◌, length, Some, slice_index_or};
ghost use Rattle.fixed_num.specs.Sums.{list_of};
ghost use Rattle.json_grammar.specs.laws.Value.{field};
ghost use Rattle.json_grammar.specs.laws.Spelling.{spell};
ghost use Rattle.instance_model.specs.Tables.{upper_of, lower_of};
ghost use Rattle.instance_writer.specs.text.Written.{count_list, object_of, named, resource_value};
ghost use Rattle.instance_writer.specs.Steps.{fields_text};

use crate::marks::{put_count, put_key};
use crate::numerals::Numerals;
use crate::sink::Sink;
use instance_model::Instance;

/// All resources, by name.
pub fn put_resources<N: Numerals, S: Sink>(inst: &Instance, sink: &mut S)
    requires ready { S.IsReady sink.old }
    ensures ready { S.IsReady sink.new }
    ensures text { S.Takes
        (spell (object_of (named inst.now.resource_names (λ c. Some (resource_value N.style inst.now c)))))
        sink.old sink.new }
{
    sink.put(b"{");
    let mut first = true;
    for c in 0..inst.resources() {
        put_resource::<N, _>(inst, c, first, sink);
        first = false;
    }
    sink.put(b"}");
}

fn put_resource<N: Numerals, S: Sink>(inst: &Instance, c: u32, first: bool, sink: &mut S)
    requires ready { S.IsReady sink.old }
    requires resource { c < length inst.now.resource_names }
    ensures ready { S.IsReady sink.new }
    ensures text { S.Takes
        (fields_text first
        (field (slice_index_or inst.now.resource_names c []) (resource_value N.style inst.now c) ∷ []))
        sink.old sink.new }
{
    put_key(first, inst.resource_name(c).as_bytes(), sink);
    put_bands::<N, _>(inst, c, sink);
}

fn put_bands<N: Numerals, S: Sink>(inst: &Instance, c: u32, sink: &mut S)
    requires ready { S.IsReady sink.old }
    requires resource { c < length inst.now.resource_names }
    ensures ready { S.IsReady sink.new }
    ensures text { S.Takes (spell (resource_value N.style inst.now c)) sink.old sink.new }
{
    sink.put(b"{");
    put_key(true, b"max", sink);
    put_upper::<N, _>(inst, c, sink);
    put_key(false, b"min", sink);
    put_lower::<N, _>(inst, c, sink);
    sink.put(b"}");
}

fn put_upper<N: Numerals, S: Sink>(inst: &Instance, c: u32, sink: &mut S)
    requires ready { S.IsReady sink.old }
    requires resource { c < length inst.now.resource_names }
    ensures ready { S.IsReady sink.new }
    ensures text { S.Takes
        (spell (count_list N.style (list_of inst.now.periods (λ k. upper_of inst.now c (k + 1)))))
        sink.old sink.new }
{
    sink.put(b"[");
    let mut first = true;
    for k in 0..inst.periods() {
        put_count::<N, _>(first, inst.upper(c, k + 1), sink);
        first = false;
    }
    sink.put(b"]");
}

fn put_lower<N: Numerals, S: Sink>(inst: &Instance, c: u32, sink: &mut S)
    requires ready { S.IsReady sink.old }
    requires resource { c < length inst.now.resource_names }
    ensures ready { S.IsReady sink.new }
    ensures text { S.Takes
        (spell (count_list N.style (list_of inst.now.periods (λ k. lower_of inst.now c (k + 1)))))
        sink.old sink.new }
{
    sink.put(b"[");
    let mut first = true;
    for k in 0..inst.periods() {
        put_count::<N, _>(first, inst.lower(c, k + 1), sink);
        first = false;
    }
    sink.put(b"]");
}
