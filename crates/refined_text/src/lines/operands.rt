//! What follows a keyword is read.
ghost use Rattle.std.specs.Prelude.{IfOk};
ghost use Rattle.refined_text.specs.lines.Steps.{Reads};

use crate::lines::groups::members_of;
use crate::lines::keyword::RefinedKeyword;
use crate::lines::{Members, RefinedLine};
use certificate_lines::{Numbers, next_number, places_of, three};
use std::alloc::{AllocError, Global};

/// The title of version 3.
pub fn title(rest: &[u8]) -> Option<RefinedLine>
    ensures { Reads RefinedKeyword.Title rest.now result }
{
    if rest == b" 3".as_slice() {
        return Some(RefinedLine::Title);
    }
    None
}

pub fn cap(rest: &[u8]) -> Option<RefinedLine>
    ensures { Reads RefinedKeyword.Cap rest.now result }
{
    if !rest.is_empty() {
        return None;
    }
    Some(RefinedLine::Cap)
}

/// The period and the members of a group.
pub fn group(alloc: Global, rest: &[u8]) -> Result<Option<RefinedLine>, AllocError>
    ensures { IfOk result (λ read. Reads RefinedKeyword.Group rest.now read) }
{
    let Some((t, more)) = next_number(rest) else {
        return Ok(None);
    };
    let Some(list) = members_of(alloc, more)? else {
        return Ok(None);
    };
    let members = Members::from_vec(list);
    Ok(Some(RefinedLine::Group { t, members }))
}

pub fn offset(rest: &[u8]) -> Option<RefinedLine>
    ensures { Reads RefinedKeyword.Offset rest.now result }
{
    let (t, more) = next_number(rest)?;
    let (i, g, v) = three(more)?;
    Some(RefinedLine::Offset { t, i, g, v })
}

/// The period, the price and the members of a clique.
pub fn clique(alloc: Global, rest: &[u8]) -> Result<Option<RefinedLine>, AllocError>
    ensures { IfOk result (λ read. Reads RefinedKeyword.Clique rest.now read) }
{
    let Some((t, more)) = next_number(rest) else {
        return Ok(None);
    };
    let Some((v, more)) = next_number(more) else {
        return Ok(None);
    };
    let Some(list) = places_of(alloc, more)? else {
        return Ok(None);
    };
    let members = Numbers::from_vec(list);
    Ok(Some(RefinedLine::Clique { t, v, members }))
}
