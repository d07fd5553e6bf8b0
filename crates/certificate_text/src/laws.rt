//! Laws of the text.
ghost use Rattle.certificate_text.specs.Laws.{TextsLead, LeadToCertificates, LinesHaveForms, LinesTell, TextsTell};
ghost use Rattle.certificate_text.specs.Laws.{TextsAreCutOneWay, TextsAreSpelledOneWay, ZeroHasNone, ZeroIsUpTo};
ghost use Rattle.certificate_text.specs.Laws.{UpGrows, LoGrows, TailGrows, ExGrows, TextsAreShort, TextsFitFiles};

use certificate_lines::lines_are_spelled_one_way;

/// The lines of a certificate in range lead from the first line to the end, and each has a form.
pub fn texts_lead()
    ensures lead { TextsLead }
    ensures forms { LinesHaveForms }
{}

/// Lines that lead from the first line to the end are those of a certificate in range.
pub fn lead_to_certificates()
    ensures led { LeadToCertificates }
{}

/// Two certificates in range that have the same lines, or the same text, are the same.
pub fn texts_tell()
    ensures lines { LinesTell }
    ensures texts { TextsTell }
{
    lines_are_spelled_one_way();
}

/// Lines are cut from a text in one way.
pub fn lines_are_cut_one_way()
    ensures front { TextsAreCutOneWay }
    ensures whole { TextsAreSpelledOneWay }
{
    lines_are_spelled_one_way();
}

/// A price or a tail that is set above the key of the last entry is one entry more, at the end.
pub fn entries_grow()
    ensures up { UpGrows }
    ensures lo { LoGrows }
    ensures tail { TailGrows }
    ensures ex { ExGrows }
{}

/// The list of zeros has no entry.
pub fn zeros_have_no_entry()
    ensures none { ZeroHasNone }
    ensures up_to { ZeroIsUpTo }
{}

/// The text of a certificate in range is no longer than its numbers of lists, of prices of exclusions and of nodes
/// allow.
pub fn texts_are_short()
    ensures short { TextsAreShort }
    ensures fit { TextsFitFiles }
{}
