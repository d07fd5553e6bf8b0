//! A short text on the stack.
ghost use Rattle.std.specs.Prelude.{◌≡◌, ◌+◌, ◌<◌, ◌≤◌, ◌^◌, List, ℕ, [], ◌++◌, decimal, length, take};
ghost use Rattle.std.specs.Fmt.{signed_decimal};
ghost use Rattle.fixed_num.specs.Texts.{fixed_text, padded};

use itoa::Buffer;
use std::marker::Model;

/// How many decimals a count has.
const DECIMALS: usize = 12;

/// The count of 1.
const ONE: u128 = 1_000_000_000_000;

/// A text of at most 64 bytes: contracts see it as the list of its bytes.
#[derive(Drop)]
pub struct Line {
    room: [u8; 64],
    used: usize,
}

impl Model for Line {
    ghost Value = { List ℕ };

    ghost view = { λ l. take l.used l.room };

    ghost invariant = { λ l. l.used ≤ 64 };
}

impl Line {
    /// The decimal text of a whole number.
    pub fn of_int(n: i128) -> Line
        ensures { result ≡ signed_decimal n }
    {
        let mut line = Line::empty();
        line.push(Buffer::new().format(n).as_bytes());
        line
    }

    /// The decimal digits of a number from 0 on.
    pub fn of_natural(n: u64) -> Line
        ensures { result ≡ decimal n }
    {
        Line::of_int(i128::from(n))
    }

    /// The text of `n / 10^12` with 12 decimals.
    pub fn of_fixed(n: i128) -> Line
        ensures { result ≡ fixed_text n }
    {
        let mut line = Line::empty();
        if n < 0 {
            line.push(b"-");
        }
        let size = n.unsigned_abs();
        line.push(Buffer::new().format(size / ONE).as_bytes());
        line.push(b".");
        line.push_decimals((size % ONE) as u64);
        line
    }

    pub fn bytes(&self) -> &[u8]
        ensures value { result.now ≡ self.now }
        ensures short { length result.now ≤ 64 }
    {
        &self.room[..self.used]
    }

    fn empty() -> Line
        ensures { result ≡ [] }
    {
        Line {
            room: [0; 64],
            used: 0,
        }
    }

    fn push(&mut self, piece: &[u8])
        requires { length self.old + length piece.now ≤ 64 }
        ensures { self.new ≡ self.old ++ piece.now }
    {
        let end = self.used + piece.len();
        self.room[self.used..end].copy_from_slice(piece);
        self.used = end;
    }

    fn push_decimals(&mut self, n: u64)
        requires fits { n < 10 ^ 12 }
        requires room { length self.old ≤ 45 }
        ensures { self.new ≡ self.old ++ padded 12 n }
    {
        let mut buffer = Buffer::new();
        let digits = buffer.format(n).as_bytes();
        self.push(&[b'0'; DECIMALS][..DECIMALS - digits.len()]);
        self.push(digits);
    }
}
