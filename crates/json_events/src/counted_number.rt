//! Numbers without a sign and an exponent, of at most 7 digits before the point and 12 behind it.

ghost use Rattle.std.specs.Prelude.{◌≡◌, ◌≤◌, ◌+◌, ◌*◌, ◌^◌, ◌⊎◌, IfSome, IsTrue, pos};
ghost use Rattle.json_events.specs.CountedNumbers.{WritesDigits, IsWhole, IsEndedRun, IsCountedRun};

use decimal_numbers::power_of_ten;
use fixed_num::Fixed;

/// How many digits may stand before the point.
pub(crate) const MOST_WHOLE: usize = 7;

/// How many digits may stand behind the point: those of 10^-12.
pub(crate) const PLACES: usize = 12;

/// A number of a text that is read without its token.
#[derive(Clone, Copy, Drop)]
pub struct CountedNumber {
    /// The offset of its first byte.
    pub at: u64,
    /// Its exact value, as a count of 10^-12.
    pub count: Fixed,
}

/// How many bytes in front are a number, and its count of 10^-12.
#[derive(Clone, Copy, Drop)]
pub(crate) struct CountedRun {
    pub length: usize,
    pub size: u64,
}

/// How many digits are in front, and the number that they write behind another one.
#[derive(Clone, Copy, Drop)]
pub(crate) struct DigitRun {
    pub length: usize,
    pub value: u64,
}

/// The number in front that is told by its count, where a comma follows it.
#[inline]
pub(crate) fn counted_number(bytes: &[u8]) -> Option<CountedRun>
    ensures { IfSome result (λ run. IsCountedRun bytes.now run.length (pos run.size)) }
{
    let run = ended_number(bytes)?;
    if bytes[run.length] != b',' {
        return None;
    }
    Some(run)
}

/// The number in front that is told by its count, where a comma follows it or the bracket that closes a list.
#[inline]
pub(crate) fn ended_number(bytes: &[u8]) -> Option<CountedRun>
    ensures { IfSome result (λ run. IsEndedRun bytes.now run.length (pos run.size)) }
{
    let whole = digits_behind(0, bytes, MOST_WHOLE);
    if whole.length == 0 || whole.length == bytes.len() {
        return None;
    }
    if whole.length > 1 && bytes[0] == b'0' {
        return None;
    }
    match bytes[whole.length] {
        b',' | b']' => Some(CountedRun {
            length: whole.length,
            size: whole.value * power_of_ten(PLACES),
        }),
        b'.' => ended_fraction(bytes, whole),
        _ => None,
    }
}

/// The same, where the digits before its point are read.
#[inline]
fn ended_fraction(bytes: &[u8], whole: DigitRun) -> Option<CountedRun>
    requires { IsWhole bytes.now whole.length whole.value }
    ensures { IfSome result (λ run. IsEndedRun bytes.now run.length (pos run.size)) }
{
    let fraction = digits_behind(whole.value, &bytes[whole.length + 1..], PLACES);
    let length = whole.length + 1 + fraction.length;
    if fraction.length == 0 || length == bytes.len() || !ends_item(bytes[length]) {
        return None;
    }
    let size = fraction.value * power_of_ten(PLACES - fraction.length);
    Some(CountedRun { length, size })
}

/// Whether the byte may stand behind an item of a list.
#[inline]
fn ends_item(byte: u8) -> bool
    ensures { IsTrue result → (byte ≡ 44) ⊎ (byte ≡ 93) }
{
    byte == b',' || byte == b']'
}

/// The digits in front, at most so many, behind those of a number.
#[inline]
pub(crate) fn digits_behind(front: u64, bytes: &[u8], most: usize) -> DigitRun
    requires room { (front + 1) * 10 ^ most ≤ 2 ^ 64 }
    ensures writes { WritesDigits front bytes.now result.length result.value }
    ensures most { result.length ≤ most }
{
    let mut value = front;
    let mut length = 0;
    while length < most && length < bytes.len() && bytes[length].is_ascii_digit() {
        value = value * 10 + (bytes[length] - b'0') as u64;
        length += 1;
    }
    DigitRun { length, value }
}
