//! The starts of a box with their risks, as whole units.
ghost use Rattle.std.specs.Prelude.{◌≡◌, ◌*◌, ◌<◌, ◌≤◌, length, All, IfOk, IfSome, OnOk, IsTrue};
ghost use Rattle.instance_model.specs.Tables.{is_allowed, in_run};
ghost use Rattle.group_ladder.specs.Search.{IsStart, IsRange, AreStarts};

use crate::units::{Mean, Units};
use duration_calendar::run;
use fixed_num::Steps;
use instance_model::Instance;
use lagrange_bound::Span;
use std::alloc::{AllocError, Global};
use std::marker::Brand;
use std::sync::ledger::{Blank, Ledger};

/// A start: it is in progress from period `begin` to `past - 1`.
#[derive(Drop)]
pub(crate) struct Start {
    pub(crate) begin: u32,
    pub(crate) past: u32,
    /// Its risks, by period of the run, then scenario.
    pub(crate) risks: Vec<i32>,
}

/// The starts of an intervention: those from place `from` to `past - 1`.
#[derive(Clone, Copy)]
pub(crate) struct Range {
    pub(crate) from: usize,
    pub(crate) past: usize,
}

/// The first `n` risks, and those behind them.
pub(crate) fn split_row(risks: &[i32], n: u32) -> (&[i32], &[i32]) {
    let n = (n as usize).min(risks.len());
    risks.split_at(n)
}

/// Takes in the risks of a start.
fn measure_start<L: Ledger>(inst: &Instance, i: u32, s: u32, mean: &mut Mean, steps: &mut Steps<L>)
    requires number { i < length inst.now.names }
    requires allowed { IsTrue (is_allowed inst.now i s) }
{
    let window = run(inst, i, s);
    for t in window.from..window.past {
        let risks = inst.risks(i, s, t, steps);
        for k in 0..risks.len() {
            mean.add(risks.at(k).count());
        }
    }
}

/// Takes in the risks of all starts of an intervention from `span.from` to `span.to`.
fn measure_starts<L: Ledger>(
    inst: &Instance,
    i: u32,
    span: Span,
    mean: &mut Mean,
    steps: &mut Steps<L>,
)
    requires { i < length inst.now.names }
{
    inst.fits();
    for s in 1..inst.tmax(i) + 1 {
        if span.from <= s && s <= span.to && inst.allowed(i, s) {
            measure_start(inst, i, s, mean, steps);
        }
    }
}

/// The mean risk of a box, computed on a new ledger.
fn mean_on<L: Ledger>(inst: &Instance, spans: &[Span], blank: Blank) -> Mean
    requires name { blank.name ≡ L.name }
    requires parts { blank.parts ≡ L.parts }
    requires some { 0 < blank.parts }
    requires each { length spans.now ≡ length inst.now.names }
{
    let mut steps: Steps<L> = Steps::zero(blank);
    let mut mean = Mean::none();
    for i in 0..inst.interventions() {
        measure_starts(inst, i, spans[i as usize], &mut mean, &mut steps);
    }
    mean
}

/// The mean risk of a box.
pub(crate) fn mean_risk(inst: &Instance, spans: &[Span]) -> Mean
    requires { length spans.now ≡ length inst.now.names }
{
    mean_on::<Brand>(inst, spans, Blank::new(1))
}

/// Puts the risks of a start in a period behind others.
fn push_row<L: Ledger>(
    inst: &Instance,
    units: Units,
    i: u32,
    s: u32,
    t: u32,
    risks: &mut Vec<i32>,
    steps: &mut Steps<L>,
) -> Result<(), AllocError>
    requires number { i < length inst.now.names }
    requires allowed { IsTrue (is_allowed inst.now i s) }
    requires running { IsTrue (in_run inst.now i s t) }
    requires from { 1 ≤ t }
    requires to { t ≤ inst.now.periods }
{
    let row = inst.risks(i, s, t, steps);
    for k in 0..row.len() {
        risks.push(units.risk(row.at(k).count()))?;
    }
    Ok(())
}

/// Start `s` of intervention `i`.
fn start_of<L: Ledger>(
    alloc: Global,
    inst: &Instance,
    units: Units,
    i: u32,
    s: u32,
    steps: &mut Steps<L>,
) -> Result<Start, AllocError>
    requires number { i < length inst.now.names }
    requires allowed { IsTrue (is_allowed inst.now i s) }
    ensures { IfOk result (IsStart inst.now) }
{
    let window = run(inst, i, s);
    let mut risks = Vec::new(alloc);
    for t in window.from..window.past {
        push_row(inst, units, i, s, t, &mut risks, steps)?;
    }
    Ok(Start {
        begin: window.from,
        past: window.past,
        risks,
    })
}

/// Puts the allowed starts of an intervention from `span.from` to `span.to` behind others.
fn push_starts<L: Ledger>(
    alloc: Global,
    inst: &Instance,
    units: Units,
    i: u32,
    span: Span,
    starts: &mut Vec<Start>,
    steps: &mut Steps<L>,
) -> Result<(), AllocError>
    requires number { i < length inst.now.names }
    requires starts { AreStarts inst.now starts.old.items }
    ensures starts { OnOk result (AreStarts inst.now starts.new.items) }
    ensures more { OnOk result (length starts.old.items ≤ length starts.new.items) }
{
    inst.fits();
    for s in 1..inst.tmax(i) + 1 {
        if span.from <= s && s <= span.to && inst.allowed(i, s) {
            starts.push(start_of(alloc, inst, units, i, s, steps)?)?;
        }
    }
    Ok(())
}

/// The starts of a box, and which of them are those of each intervention; none where an intervention has none.
fn starts_on<L: Ledger>(
    alloc: Global,
    inst: &Instance,
    units: Units,
    spans: &[Span],
    blank: Blank,
) -> Result<Option<(Vec<Start>, Vec<Range>)>, AllocError>
    requires name { blank.name ≡ L.name }
    requires parts { blank.parts ≡ L.parts }
    requires some { 0 < blank.parts }
    requires each { length spans.now ≡ length inst.now.names }
    ensures starts { IfOk result (λ found. IfSome found (λ p. AreStarts inst.now p.0.items)) }
    ensures each { IfOk result (λ found. IfSome found (λ p. length p.1.items ≡ length inst.now.names)) }
    ensures ranges { IfOk result (λ found. IfSome found (λ p. All (IsRange (length p.0.items)) p.1.items)) }
{
    let mut steps: Steps<L> = Steps::zero(blank);
    let mut starts = Vec::new(alloc);
    let mut ranges = Vec::with_capacity(alloc, inst.interventions() as usize)?;
    for i in 0..inst.interventions() {
        let from = starts.len();
        push_starts(
            alloc,
            inst,
            units,
            i,
            spans[i as usize],
            &mut starts,
            &mut steps,
        )?;
        let past = starts.len();
        if past == from {
            return Ok(None);
        }
        ranges.push(Range { from, past })?;
    }
    Ok(Some((starts, ranges)))
}

/// The starts of a box, and which of them are those of each intervention; none where an intervention has none.
pub(crate) fn starts_in(
    alloc: Global,
    inst: &Instance,
    units: Units,
    spans: &[Span],
) -> Result<Option<(Vec<Start>, Vec<Range>)>, AllocError>
    requires { length spans.now ≡ length inst.now.names }
    ensures starts { IfOk result (λ found. IfSome found (λ p. AreStarts inst.now p.0.items)) }
    ensures each { IfOk result (λ found. IfSome found (λ p. length p.1.items ≡ length inst.now.names)) }
    ensures ranges { IfOk result (λ found. IfSome found (λ p. All (IsRange (length p.0.items)) p.1.items)) }
{
    starts_on::<Brand>(alloc, inst, units, spans, Blank::new(1))
}
