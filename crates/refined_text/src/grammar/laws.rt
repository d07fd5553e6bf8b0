//! Laws of the text. The functions do nothing: the contract is the law.
ghost use Rattle.refined_text.specs.grammar.Laws.{RefinedTextsLead, RefinedLinesHaveForms, RefinedLinesTell};
ghost use Rattle.refined_text.specs.grammar.Laws.{RefinedTextsTell, CapGrows, GroupGrows, OffsetGrows, CliqueGrows};
ghost use Rattle.refined_text.specs.grammar.Laws.{ListsEnd};

use crate::lines::refined_lines_are_spelled_one_way;

/// The lines of a certificate in range lead from the first line to the end, and each has a form.
pub fn refined_texts_lead()
    ensures lead { RefinedTextsLead }
    ensures forms { RefinedLinesHaveForms }
{}

/// Two certificates in range that have the same lines, or the same text, are the same.
pub fn refined_texts_tell()
    ensures lines { RefinedLinesTell }
    ensures texts { RefinedTextsTell }
{
    refined_lines_are_spelled_one_way();
}

/// An entry of version 3's own that may stand behind those so far, with its numbers in range, is one line more, at the
/// end, and the list stays in range as far as it has been read; where the last groups are enough, it is in range.
pub fn refined_entries_grow()
    ensures cap { CapGrows }
    ensures group { GroupGrows }
    ensures offset { OffsetGrows }
    ensures clique { CliqueGrows }
    ensures end { ListsEnd }
{}
