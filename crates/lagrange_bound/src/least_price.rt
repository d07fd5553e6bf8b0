//! The least price over an interval of starts.
ghost use Rattle.std.specs.Prelude.{◌≡◌, ℕ, ◌<◌, ◌≤◌, ◌-◌, length, pos, None, unsigned_abs, unwrap_or, slice_index_or};
ghost use Rattle.lagrange_bound.specs.Lesser.{lesser_of, least_entry, IsSmallPrice};

use crate::Span;

/// The lesser of two prices, or the only one.
#[tactic(auto, unfolding(crate::specs::Lesser::lesser_of))]
fn lesser(best: Option<i128>, price: Option<i128>) -> Option<i128>
    requires best { IsSmallPrice best }
    requires price { IsSmallPrice price }
    ensures value { result ≡ lesser_of best price }
    ensures small { IsSmallPrice result }
{
    let Some(price) = price else {
        return best;
    };
    match best {
        Some(least) => Some(least.min(price)),
        None => Some(price),
    }
}

/// The least price of a row at the starts of an interval: 0 where there is none.
pub(crate) fn least_price(row: &[Option<i128>], span: Span) -> i128
    requires from { 1 ≤ span.from }
    requires to { span.to ≤ length row.now }
    requires small { (k : ℕ) → IsSmallPrice (slice_index_or row.now k None) }
    ensures value { result ≡ unwrap_or (least_entry (λ k. slice_index_or row.now k None) (span.from - 1)
        (span.to - (span.from - 1))) (pos 0) }
    ensures small { unsigned_abs result < 8_000_000_000_000_000_000_000_000_000_000_000 }
{
    let mut best = None;
    for k in span.from as usize - 1..span.to as usize {
        best = lesser(best, row[k]);
    }
    best.unwrap_or(0)
}
