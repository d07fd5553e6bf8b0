//! What follows a keyword is read, where no memory is taken.
ghost use Rattle.std.specs.Prelude.{◌≡◌, IfSome, IfNone};
ghost use Rattle.certificate_lines.specs.Steps.{Reads, side_text};
ghost use Rattle.certificate_lines.specs.declared.line.Side.{Side};

use crate::keyword::Keyword;
use crate::words::{next_number, one, three, two};
use crate::{CertificateLine, Side, Version};

/// The version of a title.
pub fn title(rest: &[u8]) -> Option<CertificateLine>
    ensures { Reads Keyword.Title rest.now result }
{
    if rest == b" 1".as_slice() {
        return Some(CertificateLine::Title(Version::One));
    }
    if rest == b" 2".as_slice() {
        return Some(CertificateLine::Title(Version::Two));
    }
    None
}

pub fn lists(rest: &[u8]) -> Option<CertificateLine>
    ensures { Reads Keyword.Lists rest.now result }
{
    let count = one(rest)?;
    Some(CertificateLine::Lists { count })
}

pub fn prices(rest: &[u8]) -> Option<CertificateLine>
    ensures { Reads Keyword.Prices rest.now result }
{
    if !rest.is_empty() {
        return None;
    }
    Some(CertificateLine::Prices)
}

pub fn up(rest: &[u8]) -> Option<CertificateLine>
    ensures { Reads Keyword.Up rest.now result }
{
    let (c, t, v) = three(rest)?;
    Some(CertificateLine::Up { c, t, v })
}

pub fn lo(rest: &[u8]) -> Option<CertificateLine>
    ensures { Reads Keyword.Lo rest.now result }
{
    let (c, t, v) = three(rest)?;
    Some(CertificateLine::Lo { c, t, v })
}

pub fn ex(rest: &[u8]) -> Option<CertificateLine>
    ensures { Reads Keyword.Ex rest.now result }
{
    let (e, t, v) = three(rest)?;
    Some(CertificateLine::Ex { e, t, v })
}

pub fn tree(rest: &[u8]) -> Option<CertificateLine>
    ensures { Reads Keyword.Tree rest.now result }
{
    if !rest.is_empty() {
        return None;
    }
    Some(CertificateLine::Tree)
}

pub fn split(rest: &[u8]) -> Option<CertificateLine>
    ensures { Reads Keyword.Split rest.now result }
{
    let (i, last) = two(rest)?;
    Some(CertificateLine::Split { i, last })
}

pub fn cost(rest: &[u8]) -> Option<CertificateLine>
    ensures { Reads Keyword.Cost rest.now result }
{
    let list = one(rest)?;
    Some(CertificateLine::Cost { list })
}

pub fn point(rest: &[u8]) -> Option<CertificateLine>
    ensures { Reads Keyword.Point rest.now result }
{
    if !rest.is_empty() {
        return None;
    }
    Some(CertificateLine::Point)
}

pub fn band(rest: &[u8]) -> Option<CertificateLine>
    ensures { Reads Keyword.Band rest.now result }
{
    let (c, more) = next_number(rest)?;
    let (t, end) = next_number(more)?;
    let side = side_of(end)?;
    Some(CertificateLine::Band { c, t, side })
}

fn side_of(text: &[u8]) -> Option<Side>
    ensures found { IfSome result (λ side. text.now ≡ side_text side) }
    ensures none { IfNone result ((side : Side) → text.now ≡ side_text side → ⊥) }
{
    if text == b" over".as_slice() {
        return Some(Side::Over);
    }
    if text == b" under".as_slice() {
        return Some(Side::Under);
    }
    None
}

pub fn excl(rest: &[u8]) -> Option<CertificateLine>
    ensures { Reads Keyword.Excl rest.now result }
{
    let e = one(rest)?;
    Some(CertificateLine::Excl { e })
}

pub fn empty(rest: &[u8]) -> Option<CertificateLine>
    ensures { Reads Keyword.Empty rest.now result }
{
    let i = one(rest)?;
    Some(CertificateLine::Empty { i })
}
