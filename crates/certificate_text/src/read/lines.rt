//! The lines of a text, one after another.
ghost use Rattle.std.specs.Prelude.{◌≡◌, ◌+◌, ◌<◌, ◌^◌, IfOk, IfErr, length};
ghost use Rattle.std.specs.Bool.{OnTrue, OnFalse};
ghost use Rattle.certificate_text.specs.read.Reading.{ReadsLine, IsNoLine, IsBeforeMark, IsBeforeNoMark, IsMore};
ghost use Rattle.certificate_text.specs.read.Reading.{fault_at};

use crate::read::CertFault;
use crate::read::refusal::Refusal;
use certificate_lines::{CertificateLine, line_of};
use std::alloc::Global;
use std::marker::Model;
use text_lines::split_feed;

/// What is left of a text, and how many lines were read.
#[derive(Drop)]
pub struct Lines<'a> {
    rest: &'a [u8],
    count: u64,
}

impl<'a> Model for Lines<'a> {
    ghost use Rattle.std.specs.Prelude.{◌+◌, ◌<◌, ◌^◌, length};
    ghost use Rattle.certificate_text.specs.read.Lines.{Left};

    ghost Value = { Left };

    ghost view = { λ l. record { rest = l.rest.now; count = l.count } };

    ghost invariant = { λ l. l.count + length l.rest.now < 2 ^ 63 };
}

impl<'a> Lines<'a> {
    /// All lines of a text.
    pub fn of(text: &'a [u8]) -> Lines<'a>
        ensures rest { result.rest ≡ text.now }
        ensures none { result.count ≡ 0 }
    {
        Lines {
            rest: text,
            count: 0,
        }
    }

    /// What is left of a text behind `count` lines.
    pub fn behind(text: &'a [u8], count: u64) -> Lines<'a>
        requires { count + length text.now < 2 ^ 63 }
        ensures rest { result.rest ≡ text.now }
        ensures count { result.count ≡ count }
    {
        Lines { rest: text, count }
    }

    /// Reads a line.
    pub fn next_line(&mut self, alloc: Global) -> Result<CertificateLine, CertFault>
        ensures ok { IfOk result (ReadsLine self.old self.new) }
        ensures err { IfErr result (IsNoLine self.old) }
    {
        let n = self.count + 1;
        let Some((text, more)) = split_feed(self.rest) else {
            return Err(CertFault::Cut { n });
        };
        let Some(line) = line_of(alloc, text)? else {
            return Err(CertFault::BadLine { n });
        };
        self.rest = more;
        self.count = n;
        Ok(line)
    }

    /// The fault of the line that was read last, where it is refused.
    pub fn fault(&self, refusal: Refusal) -> CertFault
        ensures { result ≡ fault_at self.now.count refusal }
    {
        match refusal {
            Refusal::Misplaced => CertFault::BadLine { n: self.count },
            Refusal::OutOfRange => CertFault::Bounds { n: self.count },
        }
    }

    /// Whether the next line begins a price list or the tree.
    pub fn is_before_mark(&self) -> bool
        ensures mark { OnTrue result (IsBeforeMark self.now) }
        ensures no_mark { OnFalse result (IsBeforeNoMark self.now) }
    {
        self.rest.starts_with(b"prices\n") || self.rest.starts_with(b"tree\n")
    }

    /// That nothing is left, or the fault of the line that follows.
    pub fn end(&self) -> Result<(), CertFault>
        ensures ok { IfOk result (λ _. length self.now.rest ≡ 0) }
        ensures err { IfErr result (IsMore self.now) }
    {
        if !self.rest.is_empty() {
            return Err(CertFault::BadLine { n: self.count + 1 });
        }
        Ok(())
    }
}
