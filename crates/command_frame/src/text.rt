//! A text that is made piece by piece.
ghost use Rattle.std.specs.Prelude.{◌≡◌, [], ◌++◌, OnOk, OnErr, decimal};
ghost use Rattle.std.specs.Fmt.{signed_decimal};
ghost use Rattle.fixed_num.specs.Texts.{fixed_text};
ghost use Rattle.command_frame.specs.Lines.{numbered_line};

use fixed_num::Line;
use std::alloc::{AllocError, Global};
use std::marker::Model;

/// The bytes of a text, which grows at its end.
#[derive(Drop)]
pub struct Text {
    bytes: Vec<u8>,
}

impl Model for Text {
    ghost use Rattle.std.specs.Prelude.{List, ℕ};

    ghost Value = { List ℕ };

    ghost view = { λ t. t.bytes.items };
}

impl Text {
    pub fn new(alloc: Global) -> Text
        ensures { result ≡ [] }
    {
        Text {
            bytes: Vec::new(alloc),
        }
    }

    pub fn as_slice(&self) -> &[u8]
        ensures { result.now ≡ self.now }
    {
        self.bytes.as_slice()
    }

    pub fn push(&mut self, piece: &str) -> Result<(), AllocError>
        ensures added { OnOk result (self.new ≡ self.old ++ piece.now) }
        ensures err { OnErr result (self.new ≡ self.old) }
    {
        self.push_bytes(piece.as_bytes())
    }

    /// Adds a whole number in decimal digits.
    pub fn push_number(&mut self, n: u64) -> Result<(), AllocError>
        ensures added { OnOk result (self.new ≡ self.old ++ decimal n) }
        ensures err { OnErr result (self.new ≡ self.old) }
    {
        self.push_bytes(Line::of_int(n.into()).bytes())
    }

    /// Adds a whole number in decimal digits, with a minus before one below 0.
    pub fn push_signed(&mut self, n: i128) -> Result<(), AllocError>
        ensures added { OnOk result (self.new ≡ self.old ++ signed_decimal n) }
        ensures err { OnErr result (self.new ≡ self.old) }
    {
        self.push_bytes(Line::of_int(n).bytes())
    }

    /// Adds a count of 10^-12 with 12 decimals.
    pub fn push_fixed(&mut self, n: i128) -> Result<(), AllocError>
        ensures added { OnOk result (self.new ≡ self.old ++ fixed_text n) }
        ensures err { OnErr result (self.new ≡ self.old) }
    {
        self.push_bytes(Line::of_fixed(n).bytes())
    }

    fn push_bytes(&mut self, piece: &[u8]) -> Result<(), AllocError>
        ensures added { OnOk result (self.new ≡ self.old ++ piece.now) }
        ensures err { OnErr result (self.new ≡ self.old) }
    {
        self.bytes.extend_from_slice(piece)?;
        Ok(())
    }
}

/// Adds a line that ends with a number.
pub fn push_numbered(text: &mut Text, words: &str, n: u64) -> Result<(), AllocError>
    ensures { OnOk result (text.new ≡ text.old ++ numbered_line words.now n) }
{
    text.push(words)?;
    text.push_number(n)?;
    text.push("\n")
}
