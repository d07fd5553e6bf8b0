//! A number token taken apart.
ghost use Rattle.std.specs.Prelude.{◌≡◌, ◌≤◌, length, option_map};
ghost use Rattle.json_grammar.specs.Token as token;
ghost use Rattle.json_grammar.specs.Split.{parts_view, exponent_view, fraction_view};

/// The sign of a number token, the digits before and behind its point, and its exponent's sign and digits.
#[derive(Drop)]
pub struct Parts<'a> {
    pub negative: bool,
    pub whole: &'a [u8],
    pub fraction: &'a [u8],
    pub shrinks: bool,
    pub exponent: &'a [u8],
}

/// The digits of a fraction, and what comes behind them.
#[derive(Drop)]
struct Fraction<'a> {
    digits: &'a [u8],
    rest: &'a [u8],
}

/// The sign and the digits of an exponent.
#[derive(Drop)]
struct Exponent<'a> {
    shrinks: bool,
    digits: &'a [u8],
}

/// The parts of a number token; `None` where the bytes are none.
#[tactic(auto, unfolding(crate::specs::Token::parts_of))]
pub fn parts_of(bytes: &[u8]) -> Option<Parts<'_>>
    ensures { option_map parts_view result ≡ token.parts_of bytes.now }
{
    let (negative, unsigned) = match bytes {
        [b'-', rest @ ..] => (true, rest),
        _ => (false, bytes),
    };
    unsigned_parts(negative, unsigned)
}

#[inline]
fn unsigned_parts(negative: bool, bytes: &[u8]) -> Option<Parts<'_>>
    ensures { option_map parts_view result ≡ token.unsigned_parts negative bytes.now }
{
    let count = digit_count(bytes);
    let whole = &bytes[..count];
    if !may_be_int(whole) {
        return None;
    }
    let fraction = fraction_of(&bytes[count..])?;
    let exponent = exponent_of(fraction.rest)?;
    Some(Parts {
        negative,
        whole,
        fraction: fraction.digits,
        shrinks: exponent.shrinks,
        exponent: exponent.digits,
    })
}

#[inline]
fn fraction_of(bytes: &[u8]) -> Option<Fraction<'_>>
    ensures { option_map fraction_view result ≡ token.fraction_of bytes.now }
{
    match bytes {
        [b'.', rest @ ..] => {
            let count = digit_count(rest);
            if count == 0 {
                return None;
            }
            Some(Fraction {
                digits: &rest[..count],
                rest: &rest[count..],
            })
        }
        _ => Some(Fraction {
            digits: &[],
            rest: bytes,
        }),
    }
}

#[inline]
fn exponent_of(bytes: &[u8]) -> Option<Exponent<'_>>
    ensures { option_map exponent_view result ≡ token.exponent_of bytes.now }
{
    match bytes {
        [] => Some(Exponent {
            shrinks: false,
            digits: bytes,
        }),
        [b'e' | b'E', b'-', digits @ ..] => exponent_digits(true, digits),
        [b'e' | b'E', b'+', digits @ ..] => exponent_digits(false, digits),
        [b'e' | b'E', digits @ ..] => exponent_digits(false, digits),
        _ => None,
    }
}

fn exponent_digits(shrinks: bool, digits: &[u8]) -> Option<Exponent<'_>>
    ensures { option_map exponent_view result ≡ token.exponent_digits shrinks digits.now }
{
    if digits.is_empty() || digit_count(digits) < digits.len() {
        return None;
    }
    Some(Exponent { shrinks, digits })
}

/// Whether digits may stand before the point: there are some, and no 0 before others.
fn may_be_int(digits: &[u8]) -> bool
    ensures { result ≡ token.may_be_int digits.now }
{
    match digits {
        [] => false,
        [_] => true,
        [first, ..] => *first != b'0',
    }
}

/// How many digits the bytes begin with.
pub fn digit_count(bytes: &[u8]) -> usize
    ensures count { result ≡ token.digit_count bytes.now }
    ensures within { result ≤ length bytes.now }
{
    let mut count = 0;
    while count < bytes.len() && bytes[count].is_ascii_digit() {
        count += 1;
    }
    count
}
