//! A text that is gathered in memory.
ghost use Rattle.std.specs.Prelude.{◌≡◌, [], Some, None, IfOk, OnErr};

use crate::sink::Sink;
use std::alloc::{AllocError, Global};
use std::marker::Model;

/// The bytes that were taken, unless memory was refused: after that nothing more is added.
#[derive(Drop)]
pub struct TextBytes {
    bytes: Vec<u8>,
    refused: bool,
}

impl Model for TextBytes {
    ghost use Rattle.std.specs.Prelude.{ℕ, List, Option, Some, None, cond};

    ghost Value = { Option (List ℕ) };

    ghost view = { λ t. cond t.refused None (Some t.bytes.items) };
}

impl TextBytes {
    pub fn empty(alloc: Global) -> TextBytes
        ensures { result ≡ Some [] }
    {
        TextBytes {
            bytes: Vec::new(alloc),
            refused: false,
        }
    }

    /// The bytes, unless memory was refused.
    pub fn into_bytes(self) -> Result<Vec<u8>, AllocError>
        ensures bytes { IfOk result (λ bytes. self ≡ Some bytes.items) }
        ensures refused { OnErr result (self ≡ None) }
    {
        if self.refused {
            Err(AllocError)
        } else {
            Ok(self.bytes)
        }
    }
}

impl Sink for TextBytes {
    ghost use Rattle.std.specs.Prelude.{⊤};
    ghost use Rattle.instance_writer.specs.Sinks.{AddsText};
    ghost use Rattle.instance_writer.specs.SinkLaws.{adds_none, adds_more};

    ghost IsReady = { λ _. ⊤ };

    ghost Takes = { AddsText };

    ghost takes_none = { adds_none };

    ghost takes_more = { adds_more };

    fn put(&mut self, piece: &[u8]) {
        if !self.refused {
            self.refused = self.bytes.extend_from_slice(piece).is_err();
        }
    }
}
