//! The words of a line, each behind one blank.
ghost use Rattle.std.specs.Prelude.{◌≡◌, ◌≢◌, ℕ, List, [], ◌∷◌, ◌++◌, All, IfSome, IfNone};
ghost use Rattle.certificate_lines.specs.Spelling.{word, words, IsNumber};
ghost use Rattle.certificate_lines.specs.Steps.{IsBreak};

use text_lines::numeral;

/// The first word of a text and what follows it, which is empty or begins with a blank.
pub fn cut_word(text: &[u8]) -> (&[u8], &[u8])
    ensures cut { text.now ≡ result.0.now ++ result.1.now }
    ensures whole { All (λ b. b ≢ 32) result.0.now }
    ensures rest { IsBreak result.1.now }
{
    match text.iter().position(|b| *b == b' ') {
        Some(end) => (&text[..end], &text[end..]),
        None => (text, b""),
    }
}

/// The number that is the next word, and what follows it.
pub fn next_number(text: &[u8]) -> Option<(u64, &[u8])>
    ensures found { IfSome result (λ read. text.now ≡ word read.0 ++ read.1.now) }
    ensures small { IfSome result (λ read. IsNumber read.0) }
    ensures rest { IfSome result (λ read. IsBreak read.1.now) }
    ensures none { IfNone result ((n : ℕ) (rest : List ℕ) → IsNumber n → IsBreak rest → text.now ≡ word n ++ rest → ⊥) }
{
    let behind = text.strip_prefix(b" ")?;
    let (digits, rest) = cut_word(behind);
    let n = numeral(digits, 19)?;
    Some((n, rest))
}

/// The number that is the only word.
pub(crate) fn one(text: &[u8]) -> Option<u64>
    ensures found { IfSome result (λ n. text.now ≡ words (n ∷ [])) }
    ensures small { IfSome result (λ n. IsNumber n) }
    ensures none { IfNone result ((n : ℕ) → IsNumber n → text.now ≡ words (n ∷ []) → ⊥) }
{
    let (n, rest) = next_number(text)?;
    if !rest.is_empty() {
        return None;
    }
    Some(n)
}

/// The numbers that are the only two words.
pub(crate) fn two(text: &[u8]) -> Option<(u64, u64)>
    ensures found { IfSome result (λ pair. text.now ≡ words (pair.0 ∷ pair.1 ∷ [])) }
    ensures small { IfSome result (λ pair. IsNumber pair.0 × IsNumber pair.1) }
    ensures none { IfNone result ((n m : ℕ) → IsNumber n → IsNumber m → text.now ≡ words (n ∷ m ∷ []) → ⊥) }
{
    let (n, rest) = next_number(text)?;
    let m = one(rest)?;
    Some((n, m))
}

/// The numbers that are the only three words.
pub fn three(text: &[u8]) -> Option<(u64, u64, u64)>
    ensures found { IfSome result (λ all. text.now ≡ words (all.0 ∷ all.1 ∷ all.2 ∷ [])) }
    ensures small { IfSome result (λ all. IsNumber all.0 × IsNumber all.1 × IsNumber all.2) }
    ensures none { IfNone result
        ((n m k : ℕ) → IsNumber n → IsNumber m → IsNumber k → text.now ≡ words (n ∷ m ∷ k ∷ []) → ⊥) }
{
    let (n, rest) = next_number(text)?;
    let (m, k) = two(rest)?;
    Some((n, m, k))
}
