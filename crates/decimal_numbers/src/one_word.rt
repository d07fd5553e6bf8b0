//! Numbers without an exponent whose digits, with the places behind them, fit one word.
ghost use Rattle.std.specs.Prelude.{◌≡◌, ◌≤◌, ◌<◌, ◌+◌, ◌-◌, ◌*◌, ◌^◌, ◌++◌, length, IsTrue};
ghost use Rattle.decimal_numbers.specs.Decimal.{number, number_from};
ghost use Rattle.decimal_numbers.specs.Scaling.{AreAllDigits, HasDigits, FitsOneWord};
ghost use Rattle.json_grammar.specs.Split.{parts_view};

use json_grammar::Parts;

/// A number of so many digits is less than 2^64.
const MOST_DIGITS: usize = 19;

const POWERS_OF_TEN: [u64; 20] = [
    1,
    10,
    100,
    1_000,
    10_000,
    100_000,
    1_000_000,
    10_000_000,
    100_000_000,
    1_000_000_000,
    10_000_000_000,
    100_000_000_000,
    1_000_000_000_000,
    10_000_000_000_000,
    100_000_000_000_000,
    1_000_000_000_000_000,
    10_000_000_000_000_000,
    100_000_000_000_000_000,
    1_000_000_000_000_000_000,
    10_000_000_000_000_000_000,
];

/// Whether `10^places` times the number is a whole one of at most 19 digits, and it is written without an exponent.
pub(crate) fn fits_one_word(parts: &Parts<'_>, places: u32) -> bool
    ensures { IsTrue result → FitsOneWord (parts_view parts.now) places }
{
    parts.exponent.is_empty()
        && parts.fraction.len() <= places as usize
        && parts.whole.len() + places as usize <= MOST_DIGITS
}

/// `10^places` times the number without its sign.
pub(crate) fn one_word_size(parts: &Parts<'_>, places: u32) -> u64
    requires digits { HasDigits (parts_view parts.now) }
    requires fits { FitsOneWord (parts_view parts.now) places }
    ensures size { result
        ≡ number (parts.now.whole.now ++ parts.now.fraction.now) * 10 ^ (places - length parts.now.fraction.now) }
    ensures small { result < 10 ^ 20 }
{
    let whole = with_digits(0, parts.whole);
    let digits = with_digits(whole, parts.fraction);
    digits * power_of_ten(places as usize - parts.fraction.len())
}

/// The number that digits write behind those of a number in front.
fn with_digits(front: u64, digits: &[u8]) -> u64
    requires digits { AreAllDigits digits.now }
    requires few { (front + 1) * 10 ^ length digits.now ≤ 2 ^ 64 }
    ensures { result ≡ number_from front digits.now }
{
    let mut value = front;
    for digit in digits {
        value = value * 10 + (*digit - b'0') as u64;
    }
    value
}

/// A power of ten below 10^20.
pub fn power_of_ten(exponent: usize) -> u64
    requires { exponent < 20 }
    ensures { result ≡ 10 ^ exponent }
{
    POWERS_OF_TEN[exponent]
}
