//! The bytes of a stream that have come and are not used yet.

ghost use Rattle.std.specs.Prelude.{◌≡◌, ◌+◌, ◌<◌, ◌≤◌, ◌^◌, [], ◌++◌, length, drop, vec_len, OnOk, OnErr, slice_get};

use std::alloc::{AllocError, Global};

/// How many bytes a stream may have at most.
const MOST_BYTES: u64 = (1 << 63) - 1;

/// The bytes of a stream from an offset on, as far as they have come. Used bytes are dropped with the next piece.
#[derive(Drop)]
pub struct Unread {
    bytes: Vec<u8>,
    used: usize,
    at: u64,
    ghost within: { used ≤ vec_len bytes },
    ghost room: { at + vec_len bytes < 2 ^ 63 + used },
}

impl Unread {
    ghost use Rattle.json_events.specs.Unreads.{unread_of};

    pub fn new(alloc: Global) -> Unread
        ensures at { result.at ≡ 0 }
        ensures empty { unread_of result ≡ [] }
    {
        Unread {
            bytes: Vec::new(alloc),
            used: 0,
            at: 0,
        }
    }

    /// The offset of the first byte.
    pub fn at(&self) -> u64
        ensures { result ≡ self.now.at }
    {
        self.at
    }

    pub fn as_slice(&self) -> &[u8]
        ensures same { result.now ≡ unread_of self.now }
        ensures room { self.now.at + length (unread_of self.now) < 2 ^ 63 }
    {
        &self.bytes[self.used..]
    }

    pub fn first(&self) -> Option<u8>
        ensures { result ≡ slice_get (unread_of self.now) 0 }
    {
        self.as_slice().first().copied()
    }

    /// Counts bytes in front as used.
    pub fn pass(&mut self, count: usize)
        requires { count ≤ length (unread_of self.old) }
        ensures at { self.new.at ≡ self.old.at + count }
        ensures rest { unread_of self.new ≡ drop count (unread_of self.old) }
    {
        self.used += count;
        self.at += count as u64;
    }

    /// Adds a piece, in the place of the used bytes where it fits. It is refused where memory is wanting, or the
    /// stream would have 2^63 bytes.
    pub fn append(&mut self, piece: &[u8]) -> Result<(), AllocError>
        ensures at { self.new.at ≡ self.old.at }
        ensures appended { OnOk result (unread_of self.new ≡ unread_of self.old ++ piece.now) }
        ensures kept { OnErr result (unread_of self.new ≡ unread_of self.old) }
    {
        let end = self.at + (self.bytes.len() - self.used) as u64 + piece.len() as u64;
        if end > MOST_BYTES {
            return Err(AllocError);
        }
        self.drop_used();
        self.bytes.extend_from_slice(piece)
    }

    fn drop_used(&mut self)
        ensures at { self.new.at ≡ self.old.at }
        ensures used { self.new.used ≡ 0 }
        ensures rest { self.new.bytes.items ≡ unread_of self.old }
    {
        if self.used == 0 {
            return;
        }
        let rest = self.bytes.len() - self.used;
        self.bytes.copy_within(self.used.., 0);
        self.bytes.truncate(rest);
        self.used = 0;
    }
}
