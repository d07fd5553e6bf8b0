//! Interventions are put out.
ghost use Rattle.std.specs.Prelude.{◌<◌, [], ◌∷◌, length, Some, slice_index_or};
ghost use Rattle.json_grammar.specs.laws.Value.{field};
ghost use Rattle.json_grammar.specs.laws.Spelling.{spell};
ghost use Rattle.instance_model.specs.Tables.{durations};
ghost use Rattle.instance_writer.specs.text.Written.{whole_list, object_of, named, intervention_value};
ghost use Rattle.instance_writer.specs.Views.{IsViewOf};
ghost use Rattle.instance_writer.specs.Steps.{fields_text};

use crate::loads::put_workload;
use crate::marks::{put_key, put_whole};
use crate::numerals::Numerals;
use crate::risks::put_risk;
use crate::sink::Sink;
use crate::view::InstanceView;

/// All interventions, by name.
pub fn put_interventions<V: InstanceView, N: Numerals, S: Sink>(view: &V, sink: &mut S)
    requires ready { S.IsReady sink.old }
    requires shown { IsViewOf (V.base view.now) (V.tables view.now) }
    ensures ready { S.IsReady sink.new }
    ensures text { S.Takes
        (spell (object_of (named (V.tables view.now).names
        (λ i. Some (intervention_value N.style (V.tables view.now) i)))))
        sink.old sink.new }
{
    sink.put(b"{");
    let mut first = true;
    for i in 0..view.instance().interventions() {
        put_intervention::<_, N, _>(view, i, first, sink);
        first = false;
    }
    sink.put(b"}");
}

fn put_intervention<V: InstanceView, N: Numerals, S: Sink>(
    view: &V,
    i: u32,
    first: bool,
    sink: &mut S,
)
    requires ready { S.IsReady sink.old }
    requires shown { IsViewOf (V.base view.now) (V.tables view.now) }
    requires number { i < length (V.base view.now).names }
    ensures ready { S.IsReady sink.new }
    ensures text { S.Takes
        (fields_text first (field (slice_index_or (V.tables view.now).names i [])
        (intervention_value N.style (V.tables view.now) i) ∷ [])) sink.old sink.new }
{
    put_key(first, view.instance().name(i).as_bytes(), sink);
    put_tables_of::<_, N, _>(view, i, sink);
}

fn put_tables_of<V: InstanceView, N: Numerals, S: Sink>(view: &V, i: u32, sink: &mut S)
    requires ready { S.IsReady sink.old }
    requires shown { IsViewOf (V.base view.now) (V.tables view.now) }
    requires number { i < length (V.base view.now).names }
    ensures ready { S.IsReady sink.new }
    ensures text { S.Takes (spell (intervention_value N.style (V.tables view.now) i)) sink.old sink.new }
{
    sink.put(b"{");
    put_key(true, b"tmax", sink);
    put_whole(true, view.instance().tmax(i), sink);
    put_key(false, b"Delta", sink);
    put_durations(view, i, sink);
    put_key(false, b"workload", sink);
    put_workload::<_, N, _>(view, i, sink);
    put_key(false, b"risk", sink);
    put_risk::<_, N, _>(view, i, sink);
    sink.put(b"}");
}

fn put_durations<V: InstanceView, S: Sink>(view: &V, i: u32, sink: &mut S)
    requires ready { S.IsReady sink.old }
    requires shown { IsViewOf (V.base view.now) (V.tables view.now) }
    requires number { i < length (V.base view.now).names }
    ensures ready { S.IsReady sink.new }
    ensures text { S.Takes (spell (whole_list (durations (V.tables view.now) i))) sink.old sink.new }
{
    sink.put(b"[");
    let mut first = true;
    for k in 0..view.instance().tmax(i) {
        put_whole(first, view.delta(i, k + 1), sink);
        first = false;
    }
    sink.put(b"]");
}
