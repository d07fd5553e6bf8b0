//! Keys that are numbers of few digits.

ghost use Rattle.std.specs.Prelude.{IfSome};
ghost use Rattle.json_events.specs.NumberKeys.{IsKeyRun};

use crate::counted_number::digits_behind;

/// How many digits a key may have here.
const MOST_DIGITS: usize = 9;

/// A key of a text that is read without its text.
#[derive(Clone, Copy, Drop)]
pub struct NumberKey {
    /// The offset of its first quote.
    pub at: u64,
    /// The number that its digits write.
    pub number: u32,
}

/// How many digits a key in front has, and the number that they write.
#[derive(Clone, Copy, Drop)]
pub(crate) struct KeyRun {
    pub count: usize,
    pub number: u32,
}

/// The key in front, where it is 1 to 9 digits and its closing quote is there.
#[inline]
pub(crate) fn number_key(bytes: &[u8]) -> Option<KeyRun>
    ensures { IfSome result (λ run. IsKeyRun bytes.now run.count run.number) }
{
    if bytes.is_empty() || bytes[0] != b'"' {
        return None;
    }
    let digits = digits_behind(0, &bytes[1..], MOST_DIGITS);
    if digits.length == 0 || 1 + digits.length >= bytes.len() || bytes[1 + digits.length] != b'"' {
        return None;
    }
    Some(KeyRun {
        count: digits.length,
        number: digits.value as u32,
    })
}
