//! A line is read from its text.
ghost use Rattle.std.specs.Prelude.{◌≡◌, ℕ, List, ◌++◌, codes, IfOk, OnErr, IfSome, IfNone};
ghost use Rattle.certificate_lines.specs.Spelling.{spelling, IsLine};
ghost use Rattle.certificate_lines.specs.Steps.{Reads};
ghost use Rattle.certificate_lines.specs.declared.line.CertificateLine.{CertificateLine};

use crate::bound_number::bound;
use crate::keyword::Keyword;
use crate::places::tail;
use crate::words::cut_word;
use crate::{CertificateLine, operands};
use std::alloc::{AllocError, Global};

/// The line that a text without line feed spells, if it spells one. Only the places of a tail take memory.
pub fn line_of(alloc: Global, text: &[u8]) -> Result<Option<CertificateLine>, AllocError>
    // What is read has a form and is spelled so.
    ensures found { IfOk result (λ read. IfSome read (λ line. IsLine line × (text.now ≡ spelling line))) }

    // Where none is read, no line that has a form is spelled so.
    ensures none { IfOk result
        (λ read. IfNone read ((line : CertificateLine) → IsLine line → text.now ≡ spelling line → ⊥)) }

    // No other line is refused for memory.
    ensures memory { OnErr result ((rest : List ℕ) × (text.now ≡ codes "tail" ++ rest)) }
{
    let (word, rest) = cut_word(text);
    match Keyword::find(word) {
        Some(keyword) => line_behind(alloc, keyword, rest),
        None => Ok(None),
    }
}

/// The line of this keyword that goes on so.
fn line_behind(
    alloc: Global,
    keyword: Keyword,
    rest: &[u8],
) -> Result<Option<CertificateLine>, AllocError>
    ensures reads { IfOk result (λ read. Reads keyword rest.now read) }
    ensures memory { OnErr result (keyword ≡ Keyword.Tail) }
{
    match keyword {
        Keyword::Title => Ok(operands::title(rest)),
        Keyword::Bound => Ok(bound(rest)),
        Keyword::Lists => Ok(operands::lists(rest)),
        Keyword::Prices => Ok(operands::prices(rest)),
        Keyword::Up => Ok(operands::up(rest)),
        Keyword::Lo => Ok(operands::lo(rest)),
        Keyword::Tail => tail(alloc, rest),
        Keyword::Ex => Ok(operands::ex(rest)),
        Keyword::Tree => Ok(operands::tree(rest)),
        Keyword::Split => Ok(operands::split(rest)),
        Keyword::Cost => Ok(operands::cost(rest)),
        Keyword::Point => Ok(operands::point(rest)),
        Keyword::Band => Ok(operands::band(rest)),
        Keyword::Excl => Ok(operands::excl(rest)),
        Keyword::Empty => Ok(operands::empty(rest)),
    }
}
