//! Numbers in decimal digits.
ghost use Rattle.std.specs.Prelude.{◌≡◌, ℕ, ◌<◌, ◌≤◌, ◌^◌, ◌↔◌, length, All, IfSome, IfNone, IsTrue, decimal};
ghost use Rattle.std.specs.Char.{digit_value};
ghost use Rattle.std.specs.Str.Parse.{AllDigits, IsNumeral, digits_value};

/// The number that at most `most` bytes write without needless zeros in front.
pub fn numeral(bytes: &[u8], most: usize) -> Option<u64>
    requires { most ≤ 19 }
    ensures found { IfSome result (λ n. bytes.now ≡ decimal n) }
    ensures few { IfSome result (λ n. length bytes.now ≤ most) }
    ensures small { IfSome result (λ n. n < 10 ^ most) }
    ensures none { IfNone result ((n : ℕ) → bytes.now ≡ decimal n → length bytes.now ≤ most → ⊥) }
{
    if bytes.len() > 1 && bytes[0] == b'0' {
        return None;
    }
    value_of_digits(bytes, most)
}

/// The number that 1 to `most` digits write, which may begin with zeros.
pub fn value_of_digits(bytes: &[u8], most: usize) -> Option<u64>
    requires { most ≤ 19 }
    ensures found { IfSome result (λ n. digits_value 10 bytes.now ≡ n) }
    ensures digits { IfSome result (λ n. IsNumeral 10 bytes.now) }
    ensures few { IfSome result (λ n. length bytes.now ≤ most) }
    ensures small { IfSome result (λ n. n < 10 ^ most) }
    ensures none { IfNone result (IsNumeral 10 bytes.now → length bytes.now ≤ most → ⊥) }
{
    let n = wide_value_of_digits(bytes, most)?;
    Some(n as u64)
}

/// The number that 1 to `most` digits write, where these are too many for a `u64`.
pub fn wide_value_of_digits(bytes: &[u8], most: usize) -> Option<u128>
    requires { most ≤ 38 }
    ensures found { IfSome result (λ n. digits_value 10 bytes.now ≡ n) }
    ensures digits { IfSome result (λ n. IsNumeral 10 bytes.now) }
    ensures few { IfSome result (λ n. length bytes.now ≤ most) }
    ensures small { IfSome result (λ n. n < 10 ^ most) }
    ensures none { IfNone result (IsNumeral 10 bytes.now → length bytes.now ≤ most → ⊥) }
{
    if bytes.is_empty() || bytes.len() > most || !are_digits(bytes) {
        return None;
    }
    Some(value_of(bytes))
}

fn are_digits(bytes: &[u8]) -> bool
    ensures { IsTrue result ↔ All (λ b. digit_value b < 10) bytes.now }
{
    bytes.iter().all(|byte| byte.is_ascii_digit())
}

/// The number that some digits write.
fn value_of(digits: &[u8]) -> u128
    requires few { length digits.now ≤ 38 }
    requires digits { AllDigits 10 digits.now }
    ensures { result ≡ digits_value 10 digits.now }
{
    let mut value = 0;
    for digit in digits {
        value = value * 10 + u128::from(*digit - b'0');
    }
    value
}
