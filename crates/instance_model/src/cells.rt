//! The search for a workload among the cells of an intervention, which are in strict order.
ghost use Rattle.std.specs.Prelude.{ℕ, ◌<◌, ◌↔◌, length, IfSome, IfNone, IsTrue, slice_index_or, AllPairs};
ghost use Rattle.instance_model.specs.declared.parts.LoadCell.{LoadCell};
ghost use Rattle.instance_model.specs.Fitting.{KeyBefore, CellBefore, HasKey};

use crate::parts::LoadCell;

/// Whether one key of a start, a period and a resource stands before another.
fn is_key_before(s: u32, t: u32, c: u32, u: u32, v: u32, d: u32) -> bool
    ensures { IsTrue result ↔ KeyBefore s t c u v d }
{
    s < u || (s == u && (t < v || (t == v && c < d)))
}

/// The place of the cell of this start, period and resource, by bisection.
pub fn find_cell(cells: &[LoadCell], s: u32, t: u32, c: u32) -> Option<usize>
    requires { AllPairs CellBefore cells.now }
    ensures within { IfSome result (λ k. k < length cells.now) }
    ensures found { IfSome result (λ k. (d : LoadCell) → HasKey s t c (slice_index_or cells.now k d)) }
    ensures none { IfNone result
        ((k : ℕ) (d : LoadCell) → k < length cells.now → HasKey s t c (slice_index_or cells.now k d) → ⊥) }
{
    let mut low = 0;
    let mut high = cells.len();
    while low < high {
        let middle = low + (high - low) / 2;
        let cell = &cells[middle];
        let start = cell.start;
        let period = cell.period;
        let resource = cell.resource;
        if is_key_before(start, period, resource, s, t, c) {
            low = middle + 1;
        } else if is_key_before(s, t, c, start, period, resource) {
            high = middle;
        } else {
            return Some(middle);
        }
    }
    None
}
