//! A line is written.
ghost use Rattle.std.specs.Prelude.{◌≡◌, [], ◌∷◌, ◌++◌, IsTrue};
ghost use Rattle.plan_desk.specs.Written.{WritesText};
ghost use Rattle.certificate_lines.specs.Spelling.{spelling, words};
ghost use Rattle.certificate_lines.specs.Steps.{keyword_of, operands, bound_text, side_text, version_text};

use crate::keyword::Keyword;
use crate::{Bound, CertificateLine, Side, Version};
use fixed_num::Line;
use plan_desk::{Desk, Failed, write_all, write_pieces};

/// Writes a line with its line feed to the end of the file that is open. Takes no memory.
pub fn write_line<D: Desk>(line: &CertificateLine, desk: &mut D) -> Result<(), Failed>
    requires opened { IsTrue (D.shows desk.old).output.opened }
    ensures { WritesText (spelling line.now ++ 10 ∷ []) (D.shows desk.old) (D.shows desk.new) result }
{
    let keyword = keyword_of(line);
    write_all(desk, keyword.text())?;
    write_operands(line, desk)?;
    write_all(desk, b"\n")
}

/// Writes the line of a tail with its line feed to the end of the file that is open. Takes no memory.
pub fn write_tail<D: Desk>(t: u32, weight: u32, places: &[u32], desk: &mut D) -> Result<(), Failed>
    requires opened { IsTrue (D.shows desk.old).output.opened }
    ensures { WritesText (spelling (CertificateLine.Tail t weight places.now) ++ 10 ∷ []) (D.shows desk.old)
        (D.shows desk.new) result }
{
    write_all(desk, Keyword::Tail.text())?;
    write_words(&[u64::from(t), u64::from(weight)], desk)?;
    write_places(places, desk)?;
    write_all(desk, b"\n")
}

/// The keyword that a line begins with.
fn keyword_of(line: &CertificateLine) -> Keyword
    ensures { result ≡ keyword_of line.now }
{
    match line {
        CertificateLine::Title(_) => Keyword::Title,
        CertificateLine::Bound(_) => Keyword::Bound,
        CertificateLine::Lists { .. } => Keyword::Lists,
        CertificateLine::Prices => Keyword::Prices,
        CertificateLine::Up { .. } => Keyword::Up,
        CertificateLine::Lo { .. } => Keyword::Lo,
        CertificateLine::Tail { .. } => Keyword::Tail,
        CertificateLine::Ex { .. } => Keyword::Ex,
        CertificateLine::Tree => Keyword::Tree,
        CertificateLine::Split { .. } => Keyword::Split,
        CertificateLine::Cost { .. } => Keyword::Cost,
        CertificateLine::Point => Keyword::Point,
        CertificateLine::Band { .. } => Keyword::Band,
        CertificateLine::Excl { .. } => Keyword::Excl,
        CertificateLine::Empty { .. } => Keyword::Empty,
    }
}

/// Writes what follows the keyword.
fn write_operands<D: Desk>(line: &CertificateLine, desk: &mut D) -> Result<(), Failed>
    requires opened { IsTrue (D.shows desk.old).output.opened }
    ensures { WritesText (operands line.now) (D.shows desk.old) (D.shows desk.new) result }
{
    match line {
        CertificateLine::Title(version) => write_version(*version, desk),
        CertificateLine::Bound(bound) => write_bound(*bound, desk),
        CertificateLine::Lists { count } => write_words(&[*count], desk),
        CertificateLine::Prices | CertificateLine::Tree | CertificateLine::Point => {
            write_words(&[], desk)
        }
        CertificateLine::Up { c, t, v } | CertificateLine::Lo { c, t, v } => {
            write_words(&[*c, *t, *v], desk)
        }
        CertificateLine::Tail { t, weight, places } => {
            write_pair_and_words(*t, *weight, places.as_slice(), desk)
        }
        CertificateLine::Ex { e, t, v } => write_words(&[*e, *t, *v], desk),
        CertificateLine::Split { i, last } => write_words(&[*i, *last], desk),
        CertificateLine::Cost { list } => write_words(&[*list], desk),
        CertificateLine::Band { c, t, side } => write_band(*c, *t, *side, desk),
        CertificateLine::Excl { e } => write_words(&[*e], desk),
        CertificateLine::Empty { i } => write_words(&[*i], desk),
    }
}

fn write_version<D: Desk>(version: Version, desk: &mut D) -> Result<(), Failed>
    requires opened { IsTrue (D.shows desk.old).output.opened }
    ensures { WritesText (version_text version) (D.shows desk.old) (D.shows desk.new) result }
{
    match version {
        Version::One => write_all(desk, b" 1"),
        Version::Two => write_all(desk, b" 2"),
    }
}

fn write_bound<D: Desk>(bound: Bound, desk: &mut D) -> Result<(), Failed>
    requires opened { IsTrue (D.shows desk.old).output.opened }
    ensures { WritesText (bound_text bound) (D.shows desk.old) (D.shows desk.new) result }
{
    match bound {
        Bound::NoPlan => write_all(desk, b" none"),
        Bound::Least(n) => write_word(Line::of_int(n).bytes(), desk),
    }
}

fn write_band<D: Desk>(c: u64, t: u64, side: Side, desk: &mut D) -> Result<(), Failed>
    requires opened { IsTrue (D.shows desk.old).output.opened }
    ensures { WritesText (words (c ∷ t ∷ []) ++ side_text side) (D.shows desk.old) (D.shows desk.new) result }
{
    write_words(&[c, t], desk)?;
    write_all(desk, side_bytes(side))
}

/// A side behind a blank.
fn side_bytes(side: Side) -> &'static [u8]
    ensures { result.now ≡ side_text side }
{
    match side {
        Side::Over => b" over",
        Side::Under => b" under",
    }
}

fn write_pair_and_words<D: Desk>(
    t: u64,
    weight: u64,
    places: &[u64],
    desk: &mut D,
) -> Result<(), Failed>
    requires opened { IsTrue (D.shows desk.old).output.opened }
    ensures { WritesText (words (t ∷ weight ∷ places.now)) (D.shows desk.old) (D.shows desk.new) result }
{
    write_words(&[t, weight], desk)?;
    write_words(places, desk)
}

/// Writes numbers, each behind a blank.
pub fn write_words<D: Desk>(numbers: &[u64], desk: &mut D) -> Result<(), Failed>
    requires opened { IsTrue (D.shows desk.old).output.opened }
    ensures { WritesText (words numbers.now) (D.shows desk.old) (D.shows desk.new) result }
{
    for number in numbers {
        write_word(Line::of_natural(*number).bytes(), desk)?;
    }
    Ok(())
}

/// The same of smaller numbers.
fn write_places<D: Desk>(places: &[u32], desk: &mut D) -> Result<(), Failed>
    requires opened { IsTrue (D.shows desk.old).output.opened }
    ensures { WritesText (words places.now) (D.shows desk.old) (D.shows desk.new) result }
{
    for place in places {
        write_word(Line::of_natural(u64::from(*place)).bytes(), desk)?;
    }
    Ok(())
}

/// Writes a blank and a word.
fn write_word<D: Desk>(bytes: &[u8], desk: &mut D) -> Result<(), Failed>
    requires opened { IsTrue (D.shows desk.old).output.opened }
    ensures { WritesText (32 ∷ bytes.now) (D.shows desk.old) (D.shows desk.new) result }
{
    write_pieces(desk, &[b" ", bytes])
}
