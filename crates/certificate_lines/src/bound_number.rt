//! The bound, whose number may have up to 37 digits.
ghost use Rattle.std.specs.Prelude.{◌≡◌, ℕ, ℤ, ◌<◌, ◌^◌, ◌∷◌, IfSome, IfNone, decimal, unsigned_abs};
ghost use Rattle.std.specs.Fmt.{signed_decimal};
ghost use Rattle.certificate_lines.specs.Steps.{Reads};

use crate::keyword::Keyword;
use crate::{Bound, CertificateLine};
use text_lines::wide_value_of_digits;

/// The bound that follows its keyword.
pub fn bound(rest: &[u8]) -> Option<CertificateLine>
    ensures { Reads Keyword.Bound rest.now result }
{
    if rest == b" none".as_slice() {
        return Some(CertificateLine::Bound(Bound::NoPlan));
    }
    let behind = rest.strip_prefix(b" ")?;
    let least = signed_number(behind)?;
    Some(CertificateLine::Bound(Bound::Least(least)))
}

/// A number with a minus in front where it is below 0.
fn signed_number(text: &[u8]) -> Option<i128>
    ensures found { IfSome result (λ n. text.now ≡ signed_decimal n) }
    ensures small { IfSome result (λ n. unsigned_abs n < 10 ^ 37) }
    ensures none { IfNone result ((n : ℤ) → unsigned_abs n < 10 ^ 37 → text.now ≡ signed_decimal n → ⊥) }
{
    match text.strip_prefix(b"-") {
        Some(digits) => negative(digits),
        None => natural(text),
    }
}

/// The number below 0 that has these digits behind its minus.
fn negative(digits: &[u8]) -> Option<i128>
    ensures found { IfSome result (λ n. 45 ∷ digits.now ≡ signed_decimal n) }
    ensures small { IfSome result (λ n. unsigned_abs n < 10 ^ 37) }
    ensures none { IfNone result ((n : ℤ) → unsigned_abs n < 10 ^ 37 → 45 ∷ digits.now ≡ signed_decimal n → ⊥) }
{
    let n = wide_numeral(digits)?;
    if n == 0 {
        return None;
    }
    Some(-(n as i128))
}

/// The number from 0 on that has these digits.
fn natural(digits: &[u8]) -> Option<i128>
    ensures found { IfSome result (λ n. digits.now ≡ signed_decimal n) }
    ensures small { IfSome result (λ n. unsigned_abs n < 10 ^ 37) }
    ensures none { IfNone result ((n : ℕ) → n < 10 ^ 37 → digits.now ≡ decimal n → ⊥) }
{
    let n = wide_numeral(digits)?;
    Some(n as i128)
}

/// The number that at most 37 digits write without needless zeros in front.
fn wide_numeral(bytes: &[u8]) -> Option<u128>
    ensures found { IfSome result (λ n. bytes.now ≡ decimal n) }
    ensures small { IfSome result (λ n. n < 10 ^ 37) }
    ensures none { IfNone result ((n : ℕ) → n < 10 ^ 37 → bytes.now ≡ decimal n → ⊥) }
{
    if bytes.len() > 1 && bytes[0] == b'0' {
        return None;
    }
    wide_value_of_digits(bytes, 37)
}
