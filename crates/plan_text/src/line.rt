//! What a line of a plan text says.
ghost use Rattle.std.specs.Prelude.{◌≡◌, ◌≢◌, ℕ, ◌<◌, ◌^◌, ◌↔◌, List, IsTrue, IfSome, IfNone};
ghost use Rattle.std.specs.Char.{digit_value};
ghost use Rattle.std.specs.Str.Lines.{strip_carriage_return};
ghost use Rattle.plan_text.specs.Spelling.{AreBlanks, Gives};
ghost use Rattle.plan_text.specs.Runs.{IsSplit, EndsInStart};

use text_lines::value_of_digits;

/// A line without the carriage return at its end, if it has one.
pub fn without_return(line: &[u8]) -> &[u8]
    ensures { result.now ≡ strip_carriage_return line.now }
{
    match line {
        [front @ .., b'\r'] => front,
        _ => line,
    }
}

/// Whether a line has no byte but blanks.
pub fn is_blank(line: &[u8]) -> bool
    ensures { IsTrue result ↔ AreBlanks line.now }
{
    line.iter().all(|byte| *byte == b' ')
}

/// The name of a line and its start, if it is a name, blanks, a start and perhaps more blanks.
pub fn entry_of(line: &[u8]) -> Option<(&[u8], u32)>
    ensures found { IfSome result (λ entry. Gives line.now entry.0.now entry.1) }
    ensures small { IfSome result (λ entry. entry.1 < 10 ^ 9) }
    ensures none { IfNone result ((name : List ℕ) (start : ℕ) → Gives line.now name start → ⊥) }
{
    let (name, rest) = split_name(line);
    if name.is_empty() {
        return None;
    }
    let (_, text) = split_blanks(rest);
    let start = start_of(text)?;
    Some((name, start))
}

/// The start that a text of digits and blanks gives.
fn start_of(text: &[u8]) -> Option<u32>
    ensures found { IfSome result (EndsInStart text.now) }
    ensures small { IfSome result (λ start. start < 10 ^ 9) }
    ensures none { IfNone result ((start : ℕ) → EndsInStart text.now start → ⊥) }
{
    let (digits, rest) = split_digits(text);
    if !is_blank(rest) {
        return None;
    }
    let start = value_of_digits(digits, 9)?;
    Some(start as u32)
}

/// The bytes up to the first blank, and the rest.
fn split_name(line: &[u8]) -> (&[u8], &[u8])
    ensures { IsSplit (λ b. b ≢ 32) line.now result.0.now result.1.now }
{
    let end = line
        .iter()
        .position(|byte| *byte == b' ')
        .unwrap_or(line.len());
    line.split_at(end)
}

/// The blanks that a text begins with, and the rest.
fn split_blanks(text: &[u8]) -> (&[u8], &[u8])
    ensures { IsSplit (λ b. b ≡ 32) text.now result.0.now result.1.now }
{
    let end = text
        .iter()
        .position(|byte| *byte != b' ')
        .unwrap_or(text.len());
    text.split_at(end)
}

/// The digits that a text begins with, and the rest.
fn split_digits(text: &[u8]) -> (&[u8], &[u8])
    ensures { IsSplit (λ b. digit_value b < 10) text.now result.0.now result.1.now }
{
    let end = text
        .iter()
        .position(|byte| !byte.is_ascii_digit())
        .unwrap_or(text.len());
    text.split_at(end)
}
