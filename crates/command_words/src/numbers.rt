//! Numbers in words.
ghost use Rattle.std.specs.Prelude.{◌≡◌, ◌≤◌, IfSome, IfNone, IsTrue, false, ◌&&◌, nat_le, length};
ghost use Rattle.instance_shape.specs.Keys.{all_bytes, is_digit, number_of};
ghost use Rattle.command_words.specs.Numbers.{slack_of, slack_count, fraction, are_decimals, is_numeral_within};
ghost use Rattle.command_words.specs.Numbers.{turns_of, period_of, span_of, seed_of, count_of};

/// How many counts of 10^-12 a slack has at most.
const MOST_SLACK: u64 = 1_000_000_000;

/// How many turns there are at most.
const MOST_TURNS: u128 = 1_000_000;

/// The last period that words may name.
const LAST_PERIOD: u128 = 512;

/// How many digits the numeral of turns, a period or a count has at most.
const MOST_DIGITS: usize = 7;

/// How many digits that of a seed has at most.
const SEED_DIGITS: usize = 20;

/// The greatest seed.
const MOST_SEED: u128 = 18_446_744_073_709_551_615;

/// How many interventions a drawn instance has at most.
const MOST_INTERVENTIONS: u128 = 200;

/// The slack of a word `slack=D`, in counts of 10^-12.
pub fn slack_of(word: &str) -> Option<u32>
    ensures value { result ≡ slack_of word.now }
    ensures small { IfSome result (λ count. count ≤ 1_000_000_000) }
{
    match word.as_bytes() {
        [b's', b'l', b'a', b'c', b'k', b'=', count @ ..] => slack_count(count),
        _ => None,
    }
}

/// The slack of the bytes behind `slack=`.
fn slack_count(bytes: &[u8]) -> Option<u32>
    ensures value { result ≡ slack_count bytes.now }
    ensures small { IfSome result (λ count. count ≤ 1_000_000_000) }
{
    match bytes {
        [b'0'] => Some(0),
        [b'0', b'.', digits @ ..] => {
            let count = fraction(digits)?;
            if count <= MOST_SLACK {
                Some(count as u32)
            } else {
                None
            }
        }
        _ => None,
    }
}

/// The turns of a word.
#[tactic(auto, unfolding(crate::specs::Numbers::turns_of))]
pub fn turns_of(word: &str) -> Option<u32>
    ensures value { result ≡ turns_of word.now }
    ensures small { IfSome result (λ count. count ≤ 1_000_000) }
{
    let count = numeral(word.as_bytes(), MOST_DIGITS)?;
    if count <= MOST_TURNS {
        Some(count as u32)
    } else {
        None
    }
}

/// The period of a word.
pub fn period_of(word: &str) -> Option<u32>
    ensures value { result ≡ period_of word.now }
    ensures first { IfSome result (λ t. 1 ≤ t) }
    ensures last { IfSome result (λ t. t ≤ 512) }
{
    let number = numeral(word.as_bytes(), MOST_DIGITS)?;
    if number >= 1 && number <= LAST_PERIOD {
        Some(number as u32)
    } else {
        None
    }
}

/// The periods of two words, the second of which is not before the first.
#[tactic(auto, unfolding(crate::specs::Numbers::span_of))]
pub fn span_of(from: &str, to: &str) -> Option<(u32, u32)>
    ensures value { result ≡ span_of from.now to.now }
    ensures first { IfSome result (λ span. 1 ≤ span.0) }
{
    let from = period_of(from)?;
    let to = period_of(to)?;
    if from <= to { Some((from, to)) } else { None }
}

/// The seed of a word.
pub fn seed_of(word: &str) -> Option<u64>
    ensures value { result ≡ seed_of word.now }
{
    let number = numeral(word.as_bytes(), SEED_DIGITS)?;
    if number <= MOST_SEED {
        Some(number as u64)
    } else {
        None
    }
}

/// The number of interventions of a word.
pub fn count_of(word: &str) -> Option<u32>
    ensures value { result ≡ count_of word.now }
    ensures first { IfSome result (λ n. 1 ≤ n) }
    ensures last { IfSome result (λ n. n ≤ 200) }
{
    let number = numeral(word.as_bytes(), MOST_DIGITS)?;
    if number >= 1 && number <= MOST_INTERVENTIONS {
        Some(number as u32)
    } else {
        None
    }
}

/// 1 to `most` digits, the first of which is no needless zero.
fn numeral(digits: &[u8], most: usize) -> Option<u128>
    requires short { most ≤ 20 }
    ensures found { IfSome result
        (λ count. IsTrue (is_numeral_within most digits.now) × (count ≡ number_of digits.now)) }
    ensures none { IfNone result (is_numeral_within most digits.now ≡ false) }
{
    match digits {
        [] | [b'0', _, ..] => None,
        _ => short_number(digits, most),
    }
}

/// At most `most` digits.
fn short_number(digits: &[u8], most: usize) -> Option<u128>
    requires short { most ≤ 20 }
    ensures found { IfSome result (λ count. IsTrue (nat_le (length digits.now) most && all_bytes is_digit digits.now)
        × (count ≡ number_of digits.now)) }
    ensures none { IfNone result ((nat_le (length digits.now) most && all_bytes is_digit digits.now) ≡ false) }
{
    if digits.len() > most {
        return None;
    }
    let mut number: u128 = 0;
    for digit in digits {
        if *digit < b'0' || *digit > b'9' {
            return None;
        }
        number = number * 10 + (*digit - b'0') as u128;
    }
    Some(number)
}

/// 1 to 12 digits behind the point, in 10^-12.
fn fraction(digits: &[u8]) -> Option<u64>
    ensures found { IfSome result (λ count. IsTrue (are_decimals digits.now) × (count ≡ fraction digits.now)) }
    ensures none { IfNone result (are_decimals digits.now ≡ false) }
{
    if digits.is_empty() || digits.len() > 12 {
        return None;
    }
    let mut number: u64 = 0;
    for digit in digits {
        if *digit < b'0' || *digit > b'9' {
            return None;
        }
        number = number * 10 + (*digit - b'0') as u64;
    }
    Some(number * 10u64.pow(12 - digits.len() as u32))
}
