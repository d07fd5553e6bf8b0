//! Risks are put out.
//!
//! The walk over periods and starts is like that of the workloads, and stands apart: a start is put out here where its
//! run holds the period, and there where it has a workload too, and each asks before a key is put whether anything
//! follows.
ghost use Rattle.std.specs.Prelude.{◌≡◌, ◌+◌, ◌<◌, ◌≤◌, decimal, length, is_some, IsTrue};
ghost use Rattle.fixed_num.specs.Sums.{list_of};
ghost use Rattle.json_grammar.specs.laws.Spelling.{spell};
ghost use Rattle.instance_model.specs.RiskNumbers.{numbers_of};
ghost use Rattle.instance_model.specs.Tables.{tmax, is_allowed, in_run, scenarios_of, risk_of};
ghost use Rattle.instance_writer.specs.text.Styles.{Style};
ghost use Rattle.instance_writer.specs.text.Written.{count_list, object_of, optional, numbered, risks_of, risk_value};
ghost use Rattle.instance_writer.specs.Views.{IsViewOf};
ghost use Rattle.instance_writer.specs.Steps.{fields_text, is_first_after, period_risks};

use crate::loads::is_running;
use crate::marks::{put_count, put_number_key};
use crate::numerals::Numerals;
use crate::sink::Sink;
use crate::view::InstanceView;
use fixed_num::Steps;
use instance_model::{Instance, RiskNumbers};
use std::marker::Brand;
use std::sync::ledger::{Blank, Ledger};

/// The risks of a start in a period, read on a new ledger.
fn risks_on<L: Ledger>(inst: &Instance, i: u32, s: u32, t: u32, blank: Blank) -> RiskNumbers<'_>
    requires name { blank.name ≡ L.name }
    requires parts { blank.parts ≡ L.parts }
    requires some { 0 < blank.parts }
    requires number { i < length inst.now.names }
    requires allowed { IsTrue (is_allowed inst.now i s) }
    requires running { IsTrue (in_run inst.now i s t) }
    requires from { 1 ≤ t }
    requires to { t ≤ inst.now.periods }
    ensures { numbers_of result ≡ list_of (scenarios_of inst.now t) (λ k. risk_of inst.now i s t (k + 1)) }
{
    let mut steps: Steps<L> = Steps::zero(blank);
    inst.risks(i, s, t, &mut steps)
}

/// Whether intervention `i` has risks in period `t`.
fn has_risks_in<V: InstanceView>(view: &V, i: u32, t: u32) -> bool
    requires shown { IsViewOf (V.base view.now) (V.tables view.now) }
    requires number { i < length (V.base view.now).names }
    ensures { (style : Style) → result ≡ is_some (period_risks style (V.tables view.now) i t) }
{
    for k in 0..view.instance().tmax(i) {
        if is_running(view, i, k + 1, t) {
            return true;
        }
    }
    false
}

/// The risks of intervention `i`, by period, start and scenario.
pub fn put_risk<V: InstanceView, N: Numerals, S: Sink>(view: &V, i: u32, sink: &mut S)
    requires ready { S.IsReady sink.old }
    requires shown { IsViewOf (V.base view.now) (V.tables view.now) }
    requires number { i < length (V.base view.now).names }
    ensures ready { S.IsReady sink.new }
    ensures text { S.Takes (spell (risk_value N.style (V.tables view.now) i)) sink.old sink.new }
{
    sink.put(b"{");
    let mut first = true;
    for k in 0..view.instance().periods() {
        first = put_period_risks::<_, N, _>(view, i, k + 1, first, sink);
    }
    sink.put(b"}");
}

/// Those in period `t`, if there are any. Says whether the next field would be the first.
fn put_period_risks<V: InstanceView, N: Numerals, S: Sink>(
    view: &V,
    i: u32,
    t: u32,
    first: bool,
    sink: &mut S,
) -> bool
    requires ready { S.IsReady sink.old }
    requires shown { IsViewOf (V.base view.now) (V.tables view.now) }
    requires number { i < length (V.base view.now).names }
    requires from { 1 ≤ t }
    requires to { t ≤ (V.base view.now).periods }
    ensures ready { S.IsReady sink.new }
    ensures text { S.Takes
        (fields_text first (optional (decimal t) (period_risks N.style (V.tables view.now) i t)))
        sink.old sink.new }
    ensures first { result
        ≡ is_first_after first (optional (decimal t) (period_risks N.style (V.tables view.now) i t)) }
{
    if !has_risks_in(view, i, t) {
        return first;
    }
    put_number_key(first, t, sink);
    put_starts::<_, N, _>(view, i, t, sink);
    false
}

/// Those in period `t`, by start and scenario.
fn put_starts<V: InstanceView, N: Numerals, S: Sink>(view: &V, i: u32, t: u32, sink: &mut S)
    requires ready { S.IsReady sink.old }
    requires shown { IsViewOf (V.base view.now) (V.tables view.now) }
    requires number { i < length (V.base view.now).names }
    requires from { 1 ≤ t }
    requires to { t ≤ (V.base view.now).periods }
    ensures ready { S.IsReady sink.new }
    ensures text { S.Takes
        (spell (object_of (numbered (tmax (V.tables view.now) i) (risks_of N.style (V.tables view.now) i t))))
        sink.old sink.new }
{
    sink.put(b"{");
    let mut first = true;
    for k in 0..view.instance().tmax(i) {
        first = put_start_risks::<_, N, _>(view, i, t, k + 1, first, sink);
    }
    sink.put(b"}");
}

/// Those at start `s`, if its run holds the period. Says whether the next field would be the first.
fn put_start_risks<V: InstanceView, N: Numerals, S: Sink>(
    view: &V,
    i: u32,
    t: u32,
    s: u32,
    first: bool,
    sink: &mut S,
) -> bool
    requires ready { S.IsReady sink.old }
    requires shown { IsViewOf (V.base view.now) (V.tables view.now) }
    requires number { i < length (V.base view.now).names }
    requires from { 1 ≤ t }
    requires to { t ≤ (V.base view.now).periods }
    requires some { 1 ≤ s }
    requires few { s ≤ tmax (V.base view.now) i }
    ensures ready { S.IsReady sink.new }
    ensures text { S.Takes
        (fields_text first (optional (decimal s) (risks_of N.style (V.tables view.now) i t s)))
        sink.old sink.new }
    ensures first { result
        ≡ is_first_after first (optional (decimal s) (risks_of N.style (V.tables view.now) i t s)) }
{
    if !is_running(view, i, s, t) {
        return first;
    }
    put_number_key(first, s, sink);
    put_counts::<N, _>(risks_of_run(view, i, s, t), sink);
    false
}

/// The risks of a start in a period of its run, by scenario.
fn risks_of_run<V: InstanceView>(view: &V, i: u32, s: u32, t: u32) -> RiskNumbers<'_>
    requires shown { IsViewOf (V.base view.now) (V.tables view.now) }
    requires number { i < length (V.base view.now).names }
    requires allowed { IsTrue (is_allowed (V.tables view.now) i s) }
    requires running { IsTrue (in_run (V.tables view.now) i s t) }
    requires from { 1 ≤ t }
    requires to { t ≤ (V.base view.now).periods }
    ensures { numbers_of result
        ≡ list_of (scenarios_of (V.tables view.now) t) (λ k. risk_of (V.tables view.now) i s t (k + 1)) }
{
    risks_on::<Brand>(view.instance(), i, s, t, Blank::new(1))
}

fn put_counts<N: Numerals, S: Sink>(counts: RiskNumbers<'_>, sink: &mut S)
    requires ready { S.IsReady sink.old }
    ensures ready { S.IsReady sink.new }
    ensures text { S.Takes (spell (count_list N.style (numbers_of counts.entry))) sink.old sink.new }
{
    sink.put(b"[");
    let mut first = true;
    for k in 0..counts.len() {
        put_count::<N, _>(first, counts.at(k).count(), sink);
        first = false;
    }
    sink.put(b"]");
}
