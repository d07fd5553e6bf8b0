//! A line is read from its text.
ghost use Rattle.std.specs.Prelude.{◌≡◌, IfOk, IfSome, IfNone};
ghost use Rattle.refined_text.specs.lines.Spelling.{refined_spelling, IsRefinedLine};
ghost use Rattle.refined_text.specs.lines.Steps.{ReadsAs, ReadsPlain};
ghost use Rattle.refined_text.specs.declared.lines.line.RefinedLine.{RefinedLine};

use crate::lines::keyword::{RefinedKeyword, keyword_of};
use crate::lines::{RefinedLine, operands};
use certificate_lines::{cut_word, line_of};
use std::alloc::{AllocError, Global};

/// The line that a text without line feed spells, if it spells one.
pub fn refined_line_of(alloc: Global, text: &[u8]) -> Result<Option<RefinedLine>, AllocError>
    // What is read has a form and is spelled so.
    ensures found { IfOk result
        (λ read. IfSome read (λ line. IsRefinedLine line × (text.now ≡ refined_spelling line))) }

    // Where none is read, no line that has a form is spelled so.
    ensures none { IfOk result (λ read. IfNone read
        ((line : RefinedLine) → IsRefinedLine line → text.now ≡ refined_spelling line → ⊥)) }
{
    let (word, rest) = cut_word(text);
    line_behind(alloc, keyword_of(word), text, rest)
}

/// The line of this keyword that goes on so; where it is none of version 3's own, the line of the whole text.
fn line_behind(
    alloc: Global,
    keyword: RefinedKeyword,
    text: &[u8],
    rest: &[u8],
) -> Result<Option<RefinedLine>, AllocError>
    ensures { IfOk result (ReadsAs keyword text.now rest.now) }
{
    match keyword {
        RefinedKeyword::Title => Ok(operands::title(rest)),
        RefinedKeyword::Cap => Ok(operands::cap(rest)),
        RefinedKeyword::Group => operands::group(alloc, rest),
        RefinedKeyword::Offset => Ok(operands::offset(rest)),
        RefinedKeyword::Clique => operands::clique(alloc, rest),
        RefinedKeyword::Other => plain(alloc, text),
    }
}

/// The line that a text spells in version 2.
fn plain(alloc: Global, text: &[u8]) -> Result<Option<RefinedLine>, AllocError>
    ensures { IfOk result (ReadsPlain text.now) }
{
    match line_of(alloc, text)? {
        Some(line) => Ok(Some(RefinedLine::Plain(line))),
        None => Ok(None),
    }
}
