//! A text is cut at a byte, and into its lines.
ghost use Rattle.std.specs.Prelude.{◌≡◌, ◌≢◌, ◌<◌, ◌∷◌, ◌++◌, length, All, IfSome, IfNone};
ghost use Rattle.text_lines.specs.Lines.{lines_of};

/// What stands before the first such byte of a text, and what follows it.
pub fn split_once(text: &[u8], byte: u8) -> Option<(&[u8], &[u8])>
    ensures cut { IfSome result (λ parts. text.now ≡ parts.0.now ++ byte ∷ parts.1.now) }
    ensures first { IfSome result (λ parts. All (λ b. b ≢ byte) parts.0.now) }
    ensures none { IfNone result (All (λ b. b ≢ byte) text.now) }
{
    let end = text.iter().position(|b| *b == byte)?;
    Some((&text[..end], &text[end + 1..]))
}

/// The first line of a text and what follows its line feed, unless the text ends before a line feed.
pub fn split_feed(text: &[u8]) -> Option<(&[u8], &[u8])>
    ensures cut { IfSome result (λ parts. text.now ≡ parts.0.now ++ 10 ∷ parts.1.now) }
    ensures first { IfSome result (λ parts. All (λ b. b ≢ 10) parts.0.now) }
    ensures lines { IfSome result (λ parts. lines_of text.now ≡ parts.0.now ∷ lines_of parts.1.now) }
    ensures none { IfNone result (All (λ b. b ≢ 10) text.now) }
{
    split_once(text, b'\n')
}

/// The first line of a text and what follows it, whether a line feed or the text's end ends the line.
pub fn split_line(text: &[u8]) -> (&[u8], &[u8])
    requires { 0 < length text.now }
    ensures lines { lines_of text.now ≡ result.0.now ∷ lines_of result.1.now }
    ensures shorter { length result.1.now < length text.now }
{
    match split_feed(text) {
        Some(parts) => parts,
        None => text.split_at(text.len()),
    }
}
