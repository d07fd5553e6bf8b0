//! Blanks, and the characters of a string that stand for themselves in one byte.

ghost use Rattle.std.specs.Prelude.{◌≡◌};
ghost use Rattle.std.specs.List.{prefix_len};
ghost use Rattle.json_grammar.specs.laws.Machine as machine;

pub(crate) fn is_blank(byte: u8) -> bool
    ensures { result ≡ machine.is_blank byte }
{
    byte == b' ' || byte == b'\n' || byte == b'\r' || byte == b'\t'
}

pub(crate) fn is_plain(byte: u8) -> bool
    ensures { result ≡ machine.is_plain byte }
{
    0x20 <= byte && byte <= 0x7f && byte != b'"' && byte != b'\\'
}

/// How many blanks the bytes begin with.
pub fn blank_count(bytes: &[u8]) -> usize
    ensures { result ≡ prefix_len machine.is_blank bytes.now }
{
    bytes.iter().take_while(|byte| is_blank(**byte)).count()
}

/// How many plain characters the bytes begin with.
pub(crate) fn plain_count(bytes: &[u8]) -> usize
    ensures { result ≡ prefix_len machine.is_plain bytes.now }
{
    bytes.iter().take_while(|byte| is_plain(**byte)).count()
}
