//! The intervals of a box, and whether they have allowed starts.
ghost use Rattle.std.specs.Prelude.{◌≡◌, ℕ, ◌<◌, ◌≤◌, length, IsTrue, ◌↔◌};
ghost use Rattle.instance_model.specs.Tables.{tmax};
ghost use Rattle.lagrange_bound.specs.Boxes.{HasStarts, span_of, starts_in};

use duration_calendar::first_allowed;
use instance_model::Instance;
use lagrange_bound::Span;

/// The interval of intervention `i`.
pub(crate) fn span_at(inst: &Instance, spans: &[Span], i: u32) -> Span
    requires each { length spans.now ≡ length inst.now.names }
    requires ends { (k : ℕ) → k < length inst.now.names → (span_of spans.now k).to ≤ tmax inst.now k }
    requires number { i < length inst.now.names }
    ensures value { result ≡ span_of spans.now i }
    ensures small { result.to ≤ 512 }
{
    let _few = inst.periods();
    let _starts = inst.tmax(i);
    spans[i as usize]
}

/// Whether an interval has an allowed start of intervention `i`. Takes no memory.
pub fn has_start(inst: &Instance, i: u32, span: Span) -> bool
    requires { i < length inst.now.names }
    ensures { IsTrue result ↔ (0 < length (starts_in inst.now i span)) }
{
    first_allowed(inst, i, span.from, span.to).is_some()
}

/// Whether each interval of a box has an allowed start. Takes no memory.
pub fn has_starts(inst: &Instance, spans: &[Span]) -> bool
    requires { length spans.now ≡ length inst.now.names }
    ensures { IsTrue result ↔ HasStarts inst.now spans.now }
{
    for i in 0..inst.interventions() {
        if !has_start(inst, i, spans[i as usize]) {
            return false;
        }
    }
    true
}
