//! A number token as a rounded count of a power of ten.
ghost use Rattle.std.specs.Prelude.{◌<◌};
ghost use Rattle.decimal_numbers.specs.Decimal.{numerator, denominator};
ghost use Rattle.decimal_numbers.specs.Scaling.{HasDigits, Rounds};
ghost use Rattle.json_grammar.specs.Split.{parts_view};

use crate::digits::capped_number_of;
use crate::one_word::{fits_one_word, one_word_size};
use crate::tally::{Rounded, Tally};
use json_grammar::Parts;

/// The whole number nearest to `10^places` times the number without its sign, halves up. The power of ten of a large
/// exponent is never made: time is linear in the token's length.
pub(crate) fn rounded(parts: Parts<'_>, places: u32) -> Rounded
    requires { HasDigits (parts_view parts) }
    ensures { Rounds (numerator (parts_view parts.entry) places) (denominator (parts_view parts.entry))
        result.size result.differs }
{
    if fits_one_word(&parts, places) {
        let size = one_word_size(&parts, places);
        return Rounded {
            size: Some(size as u128),
            differs: false,
        };
    }
    let exponent = capped_number_of(parts.exponent);
    let point = parts.whole.len() as u128 + places as u128;
    if !parts.shrinks {
        return Tally::of(parts.whole, parts.fraction, point + exponent).rounded();
    }
    if exponent <= point {
        return Tally::of(parts.whole, parts.fraction, point - exponent).rounded();
    }
    Rounded {
        size: Some(0),
        differs: Tally::of(parts.whole, parts.fraction, 0).differs(),
    }
}
