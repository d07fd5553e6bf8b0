//! What a line of a script says.
ghost use Rattle.std.specs.Prelude.{ℕ, List, IfSome, IfNone};
ghost use Rattle.move_script.specs.Spelling.{MovesTo, Exchanges};

use text_lines::{numeral, split_once};

/// The name and the start of a line that moves.
pub fn move_of(line: &[u8]) -> Option<(&[u8], u32)>
    ensures found { IfSome result (λ words. MovesTo line.now words.0.now words.1) }
    ensures none { IfNone result ((name : List ℕ) (start : ℕ) → MovesTo line.now name start → ⊥) }
{
    let words = line.strip_prefix(b"move ")?;
    let (name, digits) = split_once(words, b' ')?;
    if name.is_empty() {
        return None;
    }
    let start = numeral(digits, 9)?;
    Some((name, start as u32))
}

/// The names of a line that exchanges two starts.
pub fn swap_of(line: &[u8]) -> Option<(&[u8], &[u8])>
    ensures found { IfSome result (λ names. Exchanges line.now names.0.now names.1.now) }
    ensures none { IfNone result ((name other : List ℕ) → Exchanges line.now name other → ⊥) }
{
    let words = line.strip_prefix(b"swap ")?;
    let (name, other) = split_once(words, b' ')?;
    if name.is_empty() || other.is_empty() || other.contains(&b' ') {
        return None;
    }
    Some((name, other))
}
