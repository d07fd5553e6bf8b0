//! A member of a cover: the piece of starts round the present one at which an intervention keeps its load, and what it
//! costs to leave that.
//!
//! Starts are told from 0 here, with their prices by a list, nothing where a start isn't allowed, and their loads.
ghost use Rattle.std.specs.Prelude.{◌≤◌, IfSome};

use crate::choosing::start_prices::{least_price, load_at, price_at};

/// An intervention of which the load on a band stays where its start stays in a piece of its interval.
#[derive(Clone, Copy)]
pub(crate) struct Member {
    pub(crate) i: u32,
    /// The last start before an end of the piece: a split there leaves the piece in one part.
    pub(crate) last: u32,
    /// How much dearer the least price outside of the piece is than the present start.
    pub(crate) cost: i128,
    /// How much more than the least load of the interval the piece has.
    pub(crate) load: i128,
}

/// Whether a start isn't allowed or has at least this load.
fn keeps(prices: &[Option<i128>], loads: &[i128], load: i128, k: usize) -> bool {
    price_at(prices, k).is_none() || load_at(loads, k) >= load
}

/// The least load of the allowed starts, where it is below that of the present one.
fn least_load(
    prices: &[Option<i128>],
    loads: &[i128],
    from: usize,
    past: usize,
    load: i128,
) -> i128 {
    let mut least = load;
    for k in from..past {
        if !keeps(prices, loads, least, k) {
            least = load_at(loads, k);
        }
    }
    least
}

/// The first start of the piece.
fn piece_from(prices: &[Option<i128>], loads: &[i128], from: usize, at: usize, load: i128) -> usize
    ensures { result ≤ at }
{
    let mut first = at;
    while first > from && keeps(prices, loads, load, first - 1) {
        first -= 1;
    }
    first
}

/// The start behind the piece.
fn piece_past(prices: &[Option<i128>], loads: &[i128], at: usize, past: usize, load: i128) -> usize
    requires { at ≤ past }
    ensures from { at ≤ result }
    ensures to { result ≤ past }
{
    let mut end = at;
    while end < past && keeps(prices, loads, load, end) {
        end += 1;
    }
    end
}

/// The end of the piece beside which the starts are dearer, where there are allowed starts beside it: the
/// number of starts up to there, and the least price of all starts beside the piece.
fn dearer_end(
    left: Option<i128>,
    right: Option<i128>,
    first: usize,
    end: usize,
) -> Option<(usize, i128)>
    requires { first ≤ end }
    ensures { IfSome result (λ place. place.0 ≤ end) }
{
    match (left, right) {
        (Some(a), Some(b)) => if b <= a {
            Some((first, b))
        } else {
            Some((end, a))
        },
        (Some(a), None) => Some((first, a)),
        (None, Some(b)) => Some((end, b)),
        (None, None) => None,
    }
}

/// Intervention `i` with its interval and its present start `at`, where some start has less than its load.
pub(crate) fn member_of(
    i: u32,
    prices: &[Option<i128>],
    loads: &[i128],
    from: usize,
    past: usize,
    at: usize,
) -> Option<Member>
    requires { past ≤ 512 }
{
    let load = load_at(loads, at);
    let least = least_load(prices, loads, from, past, load);
    if at < from || past <= at || load <= least {
        return None;
    }
    let price = price_at(prices, at)?;
    let first = piece_from(prices, loads, from, at, load);
    let end = piece_past(prices, loads, at, past, load);
    let left = least_price(prices, from, first);
    let right = least_price(prices, end, past);
    let (last, beside) = dearer_end(left, right, first, end)?;
    Some(Member {
        i,
        last: last as u32,
        cost: beside.saturating_sub(price),
        load: load.saturating_sub(least),
    })
}
