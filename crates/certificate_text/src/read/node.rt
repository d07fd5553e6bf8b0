//! The node of a line.
ghost use Rattle.std.specs.Prelude.{◌≡◌, ◌<◌, ◌≤◌, ℕ, List, ◌∷◌, length, IfOk, IfErr, IfSome, IfNone};
ghost use Rattle.instance_model.specs.Tables.{Tables};
ghost use Rattle.lagrange_bound.specs.declared.span.Span.{Span};
ghost use Rattle.certificate_lines.specs.declared.line.CertificateLine.TheVariants as form;
ghost use Rattle.certificate_text.specs.Grammar as place;
ghost use Rattle.certificate_text.specs.read.Reading.{Refuses, IsNodeOf};

use crate::read::fits::counts_to;
use crate::read::refusal::Refusal;
use certificate_lines::{CertificateLine, Side};
use certificate_tree::Node;
use instance_model::Instance;
use lagrange_bound::Span;

/// The node of a line, where a box waits for one and a certificate has so many price lists.
pub fn node_of(
    inst: &Instance,
    lists: u32,
    spans: &[Span],
    line: &CertificateLine,
) -> Result<Node, Refusal>
    requires each { length spans.now ≡ length inst.now.names }
    ensures ok { IfOk result (IsNodeOf inst.now lists spans.now line.now) }
    ensures err { (boxes : List (List Span))
        → IfErr result (Refuses inst.now (place.nodes lists (spans.now ∷ boxes)) line.now) }
{
    match *line {
        CertificateLine::Split { i, last } => split_of(inst, spans, i, last),
        CertificateLine::Cost { list } => cost_of(lists, list),
        CertificateLine::Point => Ok(Node::Point),
        CertificateLine::Band { c, t, side } => band_of(inst, c, t, side),
        CertificateLine::Excl { e } => excl_of(inst, e),
        CertificateLine::Empty { i } => empty_of(inst, i),
        _ => Err(Refusal::Misplaced),
    }
}

fn split_of(inst: &Instance, spans: &[Span], i: u64, last: u64) -> Result<Node, Refusal>
    requires each { length spans.now ≡ length inst.now.names }
    ensures ok { (lists : ℕ) → IfOk result (IsNodeOf inst.now lists spans.now (form.Split i last)) }
    ensures err { (lists : ℕ) (boxes : List (List Span))
        → IfErr result (Refuses inst.now (place.nodes lists (spans.now ∷ boxes)) (form.Split i last)) }
{
    if !counts_to(i, inst.interventions()) {
        return Err(Refusal::OutOfRange);
    }
    let Some(last) = start_before_end(spans[i as usize - 1], last) else {
        return Err(Refusal::OutOfRange);
    };
    Ok(Node::Split {
        i: (i - 1) as u32,
        last,
    })
}

/// The start that a number is, if it is one of an interval before its end.
fn start_before_end(span: Span, n: u64) -> Option<u32>
    ensures start { IfSome result (λ start. start ≡ n) }
    ensures within { IfSome result (λ start. (span.from ≤ n) × (n < span.to)) }
    ensures none { IfNone result (span.from ≤ n → n < span.to → ⊥) }
{
    if n < u64::from(span.from) || u64::from(span.to) <= n {
        return None;
    }
    Some(n as u32)
}

fn cost_of(lists: u32, list: u64) -> Result<Node, Refusal>
    ensures ok { (inst : Tables) (box : List Span) → IfOk result (IsNodeOf inst lists box (form.Cost list)) }
    ensures err { (inst : Tables) (box : List Span) (boxes : List (List Span))
        → IfErr result (Refuses inst (place.nodes lists (box ∷ boxes)) (form.Cost list)) }
{
    if list > u64::from(lists) {
        return Err(Refusal::OutOfRange);
    }
    Ok(Node::Cost { list: list as u32 })
}

fn band_of(inst: &Instance, c: u64, t: u64, side: Side) -> Result<Node, Refusal>
    ensures ok { (lists : ℕ) (box : List Span) → IfOk result (IsNodeOf inst.now lists box (form.Band c t side)) }
    ensures err { (lists : ℕ) (box : List Span) (boxes : List (List Span))
        → IfErr result (Refuses inst.now (place.nodes lists (box ∷ boxes)) (form.Band c t side)) }
{
    if !counts_to(c, inst.resources()) || !counts_to(t, inst.periods()) {
        return Err(Refusal::OutOfRange);
    }
    Ok(Node::Band {
        c: (c - 1) as u32,
        t: t as u32,
        side,
    })
}

fn excl_of(inst: &Instance, e: u64) -> Result<Node, Refusal>
    ensures ok { (lists : ℕ) (box : List Span) → IfOk result (IsNodeOf inst.now lists box (form.Excl e)) }
    ensures err { (lists : ℕ) (box : List Span) (boxes : List (List Span))
        → IfErr result (Refuses inst.now (place.nodes lists (box ∷ boxes)) (form.Excl e)) }
{
    if !counts_to(e, inst.exclusions()) {
        return Err(Refusal::OutOfRange);
    }
    Ok(Node::Excl { e: (e - 1) as u32 })
}

fn empty_of(inst: &Instance, i: u64) -> Result<Node, Refusal>
    ensures ok { (lists : ℕ) (box : List Span) → IfOk result (IsNodeOf inst.now lists box (form.Empty i)) }
    ensures err { (lists : ℕ) (box : List Span) (boxes : List (List Span))
        → IfErr result (Refuses inst.now (place.nodes lists (box ∷ boxes)) (form.Empty i)) }
{
    if !counts_to(i, inst.interventions()) {
        return Err(Refusal::OutOfRange);
    }
    Ok(Node::Empty { i: (i - 1) as u32 })
}
