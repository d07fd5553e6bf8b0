//! What is read of number tokens: counts of 10^-12, whole numbers and millionths.
ghost use Rattle.std.specs.Prelude.{◌≡◌, ◌<◌, ◌^◌, ℕ, ℤ, unsigned_abs, Bool, Some, None, IfSome, IfOk, OnErr};
ghost use Rattle.std.specs.Prelude.{MatchResult};
ghost use Rattle.json_grammar.specs.Tree as json;
ghost use Rattle.decimal_numbers.specs.Decimal.{IsFixedOf, IsTooLarge, IsWholeOf, IsMillionthsOf, signed};
ghost use Rattle.decimal_numbers.specs.Exact.{fixed, exactly, whole, millionths};
ghost use Rattle.decimal_numbers.specs.Scaling.{counted_size, unrounded_size};
ghost use Rattle.json_grammar.specs.Trees.{node_view};

use crate::nearest::rounded;
use crate::tally::Rounded;
use fixed_num::{Fixed, TooLarge};
use json_grammar::{Node, NumText, parts_of};

/// The count of 10^-12 nearest to the token's value, halves away from zero, and whether it differs from that value.
/// Time is linear in the token's length, also for an exponent of many digits; takes no memory.
///
/// # Errors
///
/// `TooLarge` where the rounded count is at least 10^20 in absolute value.
pub fn fixed_of(num: &NumText) -> Result<(Fixed, bool), TooLarge>
    ensures nearest { IfOk result (λ r. IsFixedOf num.now r.0 r.1) }
    ensures no_other { IfOk result (λ r. (count : ℤ) (differs : Bool) → IsFixedOf num.now count differs →
        (count ≡ r.0) × (differs ≡ r.1)) }
    ensures too_large { OnErr result (IsTooLarge num.now) }
    // the same as a function, which definitions cite
    ensures function { MatchResult result (λ r. fixed num.now ≡ Some (r.0, r.1)) (λ _. fixed num.now ≡ None) }
{
    let Some(parts) = parts_of(num.as_bytes()) else {
        unreachable!()
    };
    let negative = parts.negative;
    counted(negative, rounded(parts, 12))
}

/// The value of a number, or of a text that is a number token, where it is exactly a whole number from 0 to
/// 999,999,999. Takes no memory.
pub fn whole_of(node: &Node) -> Option<u32>
    ensures whole { IfSome result (λ n. IsWholeOf (node_view node.now) n) }
    ensures no_other { (n : ℕ) → IsWholeOf (node_view node.now) n → result ≡ Some n }
    ensures function { result ≡ whole (node_view node.now) }
{
    match node {
        Node::Num(num) => whole_of_number(num),
        Node::Text(text) => whole_of_text(text.as_str()),
        Node::Null => None,
        Node::Bool(_) => None,
        Node::List(_) => None,
        Node::Object(_) => None,
    }
}

/// The same of a number, for a caller that has no node.
pub fn whole_of_number(num: &NumText) -> Option<u32>
    ensures whole { IfSome result (λ n. IsWholeOf (json.Node.number num.now) n) }
    ensures no_other { (n : ℕ) → IsWholeOf (json.Node.number num.now) n → result ≡ Some n }
    ensures function { result ≡ whole (json.Node.number num.now) }
{
    exact_value(num.as_bytes(), 0, 999_999_999)
}

/// The same of a text, for a caller that has no node.
pub fn whole_of_text(text: &str) -> Option<u32>
    ensures whole { IfSome result (λ n. IsWholeOf (json.Node.text text.now) n) }
    ensures no_other { (n : ℕ) → IsWholeOf (json.Node.text text.now) n → result ≡ Some n }
    ensures function { result ≡ whole (json.Node.text text.now) }
{
    exact_value(text.as_bytes(), 0, 999_999_999)
}

/// 10^6 times the token's value, where that is exactly a whole number from 0 to 10^6. Takes no memory.
pub fn millionths_of(num: &NumText) -> Option<u32>
    ensures millionths { IfSome result (λ n. IsMillionthsOf num.now n) }
    ensures no_other { (n : ℕ) → IsMillionthsOf num.now n → result ≡ Some n }
    ensures function { result ≡ millionths num.now }
{
    exact_value(num.as_bytes(), 6, 1_000_000)
}

/// A rounded size with its sign, as a count.
fn counted(negative: bool, nearest: Rounded) -> Result<(Fixed, bool), TooLarge>
    requires { IfSome nearest.size (λ size. size < 10 ^ 20) }
    ensures { MatchResult result
        (λ r. Some (r.0, r.1) ≡ counted_size negative nearest.size nearest.differs)
        (λ _. None ≡ counted_size negative nearest.size nearest.differs) }
{
    match nearest.size {
        Some(size) => Ok((
            Fixed::from_count(with_sign(negative, size))?,
            nearest.differs,
        )),
        None => Err(TooLarge),
    }
}

fn with_sign(negative: bool, size: u128) -> i128
    requires { size < 10 ^ 20 }
    ensures value { result ≡ signed negative size }
    ensures size { unsigned_abs result ≡ size }
{
    if negative {
        -(size as i128)
    } else {
        size as i128
    }
}

/// `10^places` times a number token's value, where that is exactly a whole number from 0 to `most`; `None` for bytes
/// that are no number token.
fn exact_value(bytes: &[u8], places: u32, most: u32) -> Option<u32>
    ensures { result ≡ exactly places most bytes.now }
{
    match parts_of(bytes) {
        None => None,
        Some(parts) => {
            let negative = parts.negative;
            exact_size(negative, rounded(parts, places), most)
        }
    }
}

/// A rounded size, where nothing was rounded, it is at most `most` and isn't below 0.
fn exact_size(negative: bool, nearest: Rounded, most: u32) -> Option<u32>
    ensures { result ≡ unrounded_size negative nearest.size nearest.differs most }
{
    match nearest.size {
        Some(size) if !nearest.differs && size <= most as u128 => {
            if negative && size > 0 {
                return None;
            }
            Some(size as u32)
        }
        _ => None,
    }
}
