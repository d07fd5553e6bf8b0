//! Bytes that wait to be written.
ghost use Rattle.std.specs.Prelude.{◌≡◌, ◌+◌, ◌≤◌, ◌↔◌, List, ℕ, [], ◌++◌, length, take, IsTrue};

use std::marker::Model;

/// How many bytes may wait.
const ROOM: usize = 8192;

/// A list of at most 8192 bytes, on the stack.
#[derive(Drop)]
pub struct Room {
    bytes: [u8; ROOM],
    used: usize,
}

impl Model for Room {
    ghost Value = { List ℕ };

    ghost view = { λ r. take r.used r.bytes };

    ghost invariant = { λ r. r.used ≤ 8192 };
}

impl Room {
    pub fn empty() -> Room
        ensures { result ≡ [] }
    {
        Room {
            bytes: [0; ROOM],
            used: 0,
        }
    }

    /// Whether the piece can be added.
    pub fn fits(&self, piece: &[u8]) -> bool
        ensures { IsTrue result ↔ (length self.now + length piece.now ≤ 8192) }
    {
        piece.len() <= ROOM - self.used
    }

    pub fn push(&mut self, piece: &[u8])
        requires { length self.old + length piece.now ≤ 8192 }
        ensures { self.new ≡ self.old ++ piece.now }
    {
        let end = self.used + piece.len();
        self.bytes[self.used..end].copy_from_slice(piece);
        self.used = end;
    }

    pub fn bytes(&self) -> &[u8]
        ensures { result.now ≡ self.now }
    {
        &self.bytes[..self.used]
    }

    pub fn clear(&mut self)
        ensures { self.new ≡ [] }
    {
        self.used = 0;
    }
}
