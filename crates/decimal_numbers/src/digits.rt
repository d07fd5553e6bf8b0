//! Numbers below 10^20 by their digits.
ghost use Rattle.std.specs.Prelude.{◌≡◌, ◌<◌, ◌≤◌, ◌*◌, ◌^◌, ◌+◌, ◌-◌, ℕ, min, IfSome, IfNone};
ghost use Rattle.decimal_numbers.specs.Decimal.{number};
ghost use Rattle.json_grammar.specs.Grammar.{IsDigit};
ghost use Rattle.decimal_numbers.specs.Scaling.{AreAllDigits, SizeIs};

/// The least size that is too large.
pub(crate) const LIMIT: u128 = 100_000_000_000_000_000_000;

/// The number that the digits write, where it is below 10^20.
fn number_of(digits: &[u8]) -> Option<u128>
    requires { AreAllDigits digits.now }
    ensures value { IfSome result (λ n. n ≡ number digits.now) }
    ensures small { IfSome result (λ n. n < 10 ^ 20) }
    ensures none { IfNone result (10 ^ 20 ≤ number digits.now) }
{
    let mut value = 0;
    for digit in digits {
        value = value * 10 + (*digit - b'0') as u128;
        if value >= LIMIT {
            return None;
        }
    }
    Some(value)
}

/// The number that the digits write, or 10^20 where it is larger.
pub(crate) fn capped_number_of(digits: &[u8]) -> u128
    requires { AreAllDigits digits.now }
    ensures { result ≡ min (number digits.now) (10 ^ 20) }
{
    match number_of(digits) {
        Some(value) => value,
        None => LIMIT,
    }
}

/// The size, where it is below 10^20.
fn limited(size: u128) -> Option<u128>
    ensures { SizeIs result size }
{
    if size < LIMIT { Some(size) } else { None }
}

/// A size with one digit more.
pub(crate) fn with_digit(size: Option<u128>, digit: u8) -> Option<u128>
    requires { IsDigit digit }
    ensures { (c : ℕ) → SizeIs size c → SizeIs result (c * 10 + (digit - 48)) }
{
    match size {
        Some(value) if value < LIMIT => limited(value * 10 + (digit - b'0') as u128),
        _ => None,
    }
}

/// The size after this one.
pub(crate) fn next_size(size: Option<u128>) -> Option<u128>
    ensures { (c : ℕ) → SizeIs size c → SizeIs result (c + 1) }
{
    match size {
        Some(value) if value < LIMIT => limited(value + 1),
        _ => None,
    }
}

/// A size times `10^k`.
pub(crate) fn scaled_size(size: Option<u128>, k: u128) -> Option<u128>
    ensures { (c : ℕ) → SizeIs size c → SizeIs result (c * 10 ^ k) }
{
    match size {
        Some(value) if value < LIMIT => scaled(value, k),
        _ => None,
    }
}

/// `n * 10^k`, where it is below 10^20: the power is not made.
fn scaled(n: u128, k: u128) -> Option<u128>
    requires { n < 10 ^ 20 }
    ensures { SizeIs result (n * 10 ^ k) }
{
    let mut value = n;
    let mut left = k;
    while left > 0 && value > 0 {
        value = value * 10;
        left -= 1;
        if value >= LIMIT {
            return None;
        }
    }
    Some(value)
}
