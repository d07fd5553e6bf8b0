//! The length of a text.
ghost use Rattle.std.specs.Prelude.{◌≡◌};

use crate::sink::Sink;
use std::marker::Model;

/// Counts the bytes of a text: contracts see the count. It stops at the last number of its type.
#[derive(Drop)]
pub struct ByteCount {
    count: u64,
}

impl Model for ByteCount {
    ghost use Rattle.std.specs.Prelude.{ℕ};

    ghost Value = { ℕ };

    ghost view = { λ b. b.count };
}

impl ByteCount {
    pub fn zero() -> ByteCount
        ensures { result ≡ 0 }
    {
        ByteCount { count: 0 }
    }

    pub fn count(&self) -> u64
        ensures { result ≡ self.now }
    {
        self.count
    }
}

impl Sink for ByteCount {
    ghost use Rattle.std.specs.Prelude.{⊤};
    ghost use Rattle.instance_writer.specs.Sinks.{CountsText};
    ghost use Rattle.instance_writer.specs.SinkLaws.{counts_none, counts_more};

    ghost IsReady = { λ _. ⊤ };

    ghost Takes = { CountsText };

    ghost takes_none = { counts_none };

    ghost takes_more = { counts_more };

    fn put(&mut self, piece: &[u8]) {
        self.count = self.count.saturating_add(piece.len() as u64);
    }
}
