//! Workloads are put out.
ghost use Rattle.std.specs.Prelude.{◌≡◌, ◌+◌, ◌&&◌, ◌<◌, ◌≤◌, [], decimal, length, is_some, slice_index_or};
ghost use Rattle.json_grammar.specs.laws.Spelling.{spell};
ghost use Rattle.instance_model.specs.Tables.{tmax, is_allowed, in_run};
ghost use Rattle.instance_writer.specs.text.Styles.{Style};
ghost use Rattle.instance_writer.specs.text.Written.{object_of, optional, numbered, workload_of, workload_value};
ghost use Rattle.instance_writer.specs.Views.{IsViewOf, cell_load};
ghost use Rattle.instance_writer.specs.Steps.{fields_text, is_first_after, period_loads, start_load};

use crate::marks::{put_key, put_number_key};
use crate::numerals::Numerals;
use crate::sink::Sink;
use crate::view::InstanceView;
use fixed_num::Fixed;

/// Whether the view allows intervention `i` to start at `s`, and period `t` is in its run then.
pub fn is_running<V: InstanceView>(view: &V, i: u32, s: u32, t: u32) -> bool
    requires shown { IsViewOf (V.base view.now) (V.tables view.now) }
    requires number { i < length (V.base view.now).names }
    requires from { 1 ≤ s }
    requires to { s ≤ tmax (V.base view.now) i }
    ensures { result ≡ (is_allowed (V.tables view.now) i s && in_run (V.tables view.now) i s t) }
{
    let past = u64::from(s) + u64::from(view.delta(i, s));
    if t < s || u64::from(view.instance().periods()) + 1 < past {
        return false;
    }
    u64::from(t) < past
}

fn load_at<V: InstanceView>(view: &V, i: u32, s: u32, c: u32, t: u32) -> Option<Fixed>
    requires shown { IsViewOf (V.base view.now) (V.tables view.now) }
    requires number { i < length (V.base view.now).names }
    requires resource { c < length (V.base view.now).resource_names }
    requires from { 1 ≤ s }
    requires to { s ≤ tmax (V.base view.now) i }
    ensures { result ≡ cell_load (V.tables view.now) i s c t }
{
    if is_running(view, i, s, t) {
        view.load(i, s, c, t)
    } else {
        None
    }
}

/// Whether intervention `i` has a workload of resource `c` in period `t`.
fn has_load_in<V: InstanceView>(view: &V, i: u32, c: u32, t: u32) -> bool
    requires shown { IsViewOf (V.base view.now) (V.tables view.now) }
    requires number { i < length (V.base view.now).names }
    requires resource { c < length (V.base view.now).resource_names }
    ensures { (style : Style) → result ≡ is_some (period_loads style (V.tables view.now) i c t) }
{
    for k in 0..view.instance().tmax(i) {
        if load_at(view, i, k + 1, c, t).is_some() {
            return true;
        }
    }
    false
}

/// Whether intervention `i` has a workload of resource `c`.
fn has_load<V: InstanceView>(view: &V, i: u32, c: u32) -> bool
    requires shown { IsViewOf (V.base view.now) (V.tables view.now) }
    requires number { i < length (V.base view.now).names }
    requires resource { c < length (V.base view.now).resource_names }
    ensures { (style : Style) → result ≡ is_some (workload_of style (V.tables view.now) i c) }
{
    for k in 0..view.instance().periods() {
        if has_load_in(view, i, c, k + 1) {
            return true;
        }
    }
    false
}

/// The workloads of intervention `i`, by resource, period and start.
pub fn put_workload<V: InstanceView, N: Numerals, S: Sink>(view: &V, i: u32, sink: &mut S)
    requires ready { S.IsReady sink.old }
    requires shown { IsViewOf (V.base view.now) (V.tables view.now) }
    requires number { i < length (V.base view.now).names }
    ensures ready { S.IsReady sink.new }
    ensures text { S.Takes (spell (workload_value N.style (V.tables view.now) i)) sink.old sink.new }
{
    sink.put(b"{");
    let mut first = true;
    for c in 0..view.instance().resources() {
        first = put_resource_loads::<_, N, _>(view, i, c, first, sink);
    }
    sink.put(b"}");
}

/// Those of resource `c`, if there is one. Says whether the next field would be the first.
fn put_resource_loads<V: InstanceView, N: Numerals, S: Sink>(
    view: &V,
    i: u32,
    c: u32,
    first: bool,
    sink: &mut S,
) -> bool
    requires ready { S.IsReady sink.old }
    requires shown { IsViewOf (V.base view.now) (V.tables view.now) }
    requires number { i < length (V.base view.now).names }
    requires resource { c < length (V.base view.now).resource_names }
    ensures ready { S.IsReady sink.new }
    ensures text { S.Takes
        (fields_text first (optional (slice_index_or (V.tables view.now).resource_names c [])
        (workload_of N.style (V.tables view.now) i c))) sink.old sink.new }
    ensures first { result ≡ is_first_after first
        (optional (slice_index_or (V.tables view.now).resource_names c [])
        (workload_of N.style (V.tables view.now) i c)) }
{
    if !has_load(view, i, c) {
        return first;
    }
    put_key(first, view.instance().resource_name(c).as_bytes(), sink);
    put_periods_of::<_, N, _>(view, i, c, sink);
    false
}

/// Those of resource `c`, by period and start.
fn put_periods_of<V: InstanceView, N: Numerals, S: Sink>(view: &V, i: u32, c: u32, sink: &mut S)
    requires ready { S.IsReady sink.old }
    requires shown { IsViewOf (V.base view.now) (V.tables view.now) }
    requires number { i < length (V.base view.now).names }
    requires resource { c < length (V.base view.now).resource_names }
    ensures ready { S.IsReady sink.new }
    ensures text { S.Takes
        (spell (object_of (numbered (V.tables view.now).periods (period_loads N.style (V.tables view.now) i c))))
        sink.old sink.new }
{
    sink.put(b"{");
    let mut first = true;
    for k in 0..view.instance().periods() {
        first = put_period_loads::<_, N, _>(view, i, c, k + 1, first, sink);
    }
    sink.put(b"}");
}

/// Those in period `t`, if there is one. Says whether the next field would be the first.
fn put_period_loads<V: InstanceView, N: Numerals, S: Sink>(
    view: &V,
    i: u32,
    c: u32,
    t: u32,
    first: bool,
    sink: &mut S,
) -> bool
    requires ready { S.IsReady sink.old }
    requires shown { IsViewOf (V.base view.now) (V.tables view.now) }
    requires number { i < length (V.base view.now).names }
    requires resource { c < length (V.base view.now).resource_names }
    ensures ready { S.IsReady sink.new }
    ensures text { S.Takes
        (fields_text first (optional (decimal t) (period_loads N.style (V.tables view.now) i c t)))
        sink.old sink.new }
    ensures first { result
        ≡ is_first_after first (optional (decimal t) (period_loads N.style (V.tables view.now) i c t)) }
{
    if !has_load_in(view, i, c, t) {
        return first;
    }
    put_number_key(first, t, sink);
    put_starts_of::<_, N, _>(view, i, c, t, sink);
    false
}

/// Those of resource `c` in period `t`, by start.
fn put_starts_of<V: InstanceView, N: Numerals, S: Sink>(
    view: &V,
    i: u32,
    c: u32,
    t: u32,
    sink: &mut S,
)
    requires ready { S.IsReady sink.old }
    requires shown { IsViewOf (V.base view.now) (V.tables view.now) }
    requires number { i < length (V.base view.now).names }
    requires resource { c < length (V.base view.now).resource_names }
    ensures ready { S.IsReady sink.new }
    ensures text { S.Takes
        (spell (object_of (numbered (tmax (V.tables view.now) i) (start_load N.style (V.tables view.now) i c t))))
        sink.old sink.new }
{
    sink.put(b"{");
    let mut first = true;
    for k in 0..view.instance().tmax(i) {
        first = put_load::<_, N, _>(view, i, c, t, k + 1, first, sink);
    }
    sink.put(b"}");
}

/// That at start `s`, if there is one. Says whether the next field would be the first.
fn put_load<V: InstanceView, N: Numerals, S: Sink>(
    view: &V,
    i: u32,
    c: u32,
    t: u32,
    s: u32,
    first: bool,
    sink: &mut S,
) -> bool
    requires ready { S.IsReady sink.old }
    requires shown { IsViewOf (V.base view.now) (V.tables view.now) }
    requires number { i < length (V.base view.now).names }
    requires resource { c < length (V.base view.now).resource_names }
    requires from { 1 ≤ s }
    requires to { s ≤ tmax (V.base view.now) i }
    ensures ready { S.IsReady sink.new }
    ensures text { S.Takes
        (fields_text first (optional (decimal s) (start_load N.style (V.tables view.now) i c t s)))
        sink.old sink.new }
    ensures first { result
        ≡ is_first_after first (optional (decimal s) (start_load N.style (V.tables view.now) i c t s)) }
{
    match load_at(view, i, s, c, t) {
        Some(load) => {
            put_number_key(first, s, sink);
            N::put_count(load.count(), sink);
            false
        }
        None => first,
    }
}
