//! The lines of a text, one after another.
ghost use Rattle.std.specs.Prelude.{◌≡◌, IfOk, IfErr};
ghost use Rattle.certificate_text.specs.read.Reading.{fault_at};
ghost use Rattle.refined_text.specs.read.Reading.{ReadsRefined, IsNoRefined};

use crate::lines::{RefinedLine, refined_line_of};
use certificate_text::{CertFault, Lines, Refusal};
use std::alloc::Global;
use std::marker::Model;
use text_lines::split_feed;

/// What is left of a text, and how many lines were read.
#[derive(Drop)]
pub struct LinesLeft<'a> {
    rest: &'a [u8],
    count: u64,
}

impl<'a> Model for LinesLeft<'a> {
    ghost use Rattle.std.specs.Prelude.{◌+◌, ◌<◌, ◌^◌, length};
    ghost use Rattle.certificate_text.specs.read.Lines.{Left};

    ghost Value = { Left };

    ghost view = { λ l. record { rest = l.rest.now; count = l.count } };

    ghost invariant = { λ l. l.count + length l.rest.now < 2 ^ 63 };
}

impl<'a> LinesLeft<'a> {
    /// All lines of a text.
    pub fn of(text: &'a [u8]) -> LinesLeft<'a>
        ensures rest { result.rest ≡ text.now }
        ensures none { result.count ≡ 0 }
    {
        LinesLeft {
            rest: text,
            count: 0,
        }
    }

    /// Reads a line.
    pub fn next_line(&mut self, alloc: Global) -> Result<RefinedLine, CertFault>
        ensures ok { IfOk result (ReadsRefined self.old self.new) }
        ensures err { IfErr result (IsNoRefined self.old) }
    {
        let n = self.count + 1;
        let Some((text, more)) = split_feed(self.rest) else {
            return Err(CertFault::Cut { n });
        };
        let Some(line) = refined_line_of(alloc, text)? else {
            return Err(CertFault::BadLine { n });
        };
        self.rest = more;
        self.count = n;
        Ok(line)
    }

    /// The fault of the line that was read last, where it is refused.
    pub fn fault(&self, refusal: Refusal) -> CertFault
        ensures { result ≡ fault_at self.now.count refusal }
    {
        match refusal {
            Refusal::Misplaced => CertFault::BadLine { n: self.count },
            Refusal::OutOfRange => CertFault::Bounds { n: self.count },
        }
    }

    /// The same lines, for the reader of nodes.
    pub fn nodes(&self) -> Lines<'a>
        ensures rest { result.rest ≡ self.now.rest }
        ensures count { result.count ≡ self.now.count }
    {
        Lines::behind(self.rest, self.count)
    }
}
