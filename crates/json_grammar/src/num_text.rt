//! Number tokens, as the list of their bytes.
ghost use Rattle.std.specs.Prelude.{◌≡◌};
ghost use Rattle.json_grammar.specs.Grammar.{IsNumber};

use smallvec::SmallVec;
use std::marker::Model;

/// How many bytes of a token are kept without an allocation.
const INLINE: usize = 24;

/// The bytes of a number, kept inline where they are few.
pub type Token = SmallVec<u8, INLINE>;

/// The bytes of a number token. A token of at most 24 bytes takes no
/// allocation.
#[derive(Drop)]
pub struct NumText {
    bytes: Token,
}

impl Model for NumText {
    ghost use Rattle.std.specs.Prelude.{ℕ, List};
    ghost use Rattle.json_grammar.specs.Grammar.{IsNumber};

    ghost Value = { List ℕ };

    ghost view = { λ n. n.bytes.items };

    ghost invariant = { λ n. IsNumber n.bytes.items };
}

impl NumText {
    /// The token of bytes that are one.
    pub fn of_token(bytes: Token) -> NumText
        requires { IsNumber bytes.items }
        ensures { result ≡ bytes.items }
    {
        NumText { bytes }
    }

    pub fn as_bytes(&self) -> &[u8]
        ensures same { result.now ≡ self.now }
        ensures number { IsNumber self.now }
    {
        self.bytes.as_slice()
    }
}
