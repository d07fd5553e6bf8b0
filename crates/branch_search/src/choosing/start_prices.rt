//! The prices of the starts of an intervention by a list, nothing where a start isn't allowed. Starts are told from 0
//! here.
ghost use Rattle.std.specs.Prelude.{◌<◌, IfSome};

/// The price of a start, where it is allowed.
pub(crate) fn price_at(prices: &[Option<i128>], k: usize) -> Option<i128> {
    match prices.get(k) {
        Some(price) => *price,
        None => None,
    }
}

/// The number of a place or a start among loads, 0 past their end.
pub(crate) fn load_at(loads: &[i128], k: usize) -> i128 {
    match loads.get(k) {
        Some(load) => *load,
        None => 0,
    }
}

/// Whether a start is allowed.
pub(crate) fn is_allowed(prices: &[Option<i128>], k: usize) -> bool {
    price_at(prices, k).is_some()
}

/// The lesser of two prices, or the only one.
fn lesser(one: Option<i128>, other: Option<i128>) -> Option<i128> {
    match (one, other) {
        (Some(a), Some(b)) => Some(a.min(b)),
        (Some(a), None) => Some(a),
        (None, b) => b,
    }
}

/// The least price of the starts from `from`, up to `past`.
pub(crate) fn least_price(prices: &[Option<i128>], from: usize, past: usize) -> Option<i128> {
    let mut least = None;
    for k in from..past {
        least = lesser(least, price_at(prices, k));
    }
    least
}

/// The first start of least price of the same ones.
pub(crate) fn cheapest(prices: &[Option<i128>], from: usize, past: usize) -> Option<usize>
    ensures { IfSome result (λ k. k < past) }
{
    let mut least = None;
    let mut found = None;
    for k in from..past {
        if let Some(price) = price_at(prices, k) {
            if is_less(price, least) {
                least = Some(price);
                found = Some(k);
            }
        }
    }
    found
}

/// Whether a price is below another, or there is no other.
fn is_less(price: i128, other: Option<i128>) -> bool {
    match other {
        Some(other) => price < other,
        None => true,
    }
}
