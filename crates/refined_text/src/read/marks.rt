//! The lines that begin a price list or the tree.
ghost use Rattle.std.specs.Prelude.{◌≡◌, ◌↔◌, IsTrue};
ghost use Rattle.refined_text.specs.read.Taking.{IsRefinedMark};
ghost use Rattle.refined_text.specs.read.Reading.{mark_line};

use crate::lines::RefinedLine;
use certificate_lines::CertificateLine;

/// Whether a line begins a price list or the tree.
pub fn is_mark(line: &RefinedLine) -> bool
    ensures { IsTrue result ↔ IsRefinedMark line.now }
{
    matches!(
        line,
        RefinedLine::Plain(CertificateLine::Prices | CertificateLine::Tree)
    )
}

/// Whether a line is the one that follows where so many price lists have still to begin: that of the next one, or else
/// that of the tree.
pub fn is_mark_for(left: u32, line: &RefinedLine) -> bool
    ensures { IsTrue result ↔ (line.now ≡ mark_line left) }
{
    match line {
        RefinedLine::Plain(CertificateLine::Prices) => left > 0,
        RefinedLine::Plain(CertificateLine::Tree) => left == 0,
        _ => false,
    }
}
