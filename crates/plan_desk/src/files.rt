//! Files in memory, and what a desk of them keeps beside.

use crate::DeskCall;
use arrayvec::ArrayString;
use std::marker::Model;

/// A file.
#[derive(Drop)]
pub struct MemFile {
    pub name: String,
    pub bytes: Vec<u8>,
    /// Whether it was put out, rather than only put there.
    pub put_out: bool,
}

impl Model for MemFile {
    ghost use Rattle.std.specs.Prelude.{string_bytes};
    ghost use Rattle.plan_desk.specs.Stored.{Stored};

    ghost Value = { Stored };

    ghost view = { λ f. record { name = string_bytes f.name; bytes = f.bytes.items; put_out = f.put_out } };
}

/// How far a file was read: its place among the files, and the number of bytes.
#[derive(Clone, Copy)]
pub struct Place {
    pub file: usize,
    pub from: usize,
}

/// The longest name of a file that is told of a fault.
pub const NAME: usize = 255;

/// A call that failed. The file that is read or written is kept by its place.
#[derive(Drop)]
pub enum LastFault {
    Named(DeskCall, ArrayString<NAME>),
    OfFile(DeskCall, usize),
    Said,
}

/// A call that is to fail: the nth of its kind.
#[derive(Clone, Copy)]
pub struct Listed {
    pub call: DeskCall,
    pub nth: u32,
}
