//! The places of a tail, which take memory.
ghost use Rattle.std.specs.Prelude.{◌≡◌, ◌<◌, ℕ, List, All, IfOk, IfSome, IfNone, IsTrue, ◌↔◌};
ghost use Rattle.std.specs.List.{AllPairs};
ghost use Rattle.certificate_lines.specs.Spelling.{words, IsNumber};
ghost use Rattle.certificate_lines.specs.Steps.{IsBreak, Reads};

use crate::keyword::Keyword;
use crate::words::next_number;
use crate::{CertificateLine, Numbers};
use std::alloc::{AllocError, Global};

/// The period, the weight and the places of a tail.
pub fn tail(alloc: Global, rest: &[u8]) -> Result<Option<CertificateLine>, AllocError>
    ensures { IfOk result (λ read. Reads Keyword.Tail rest.now read) }
{
    let Some((t, more)) = next_number(rest) else {
        return Ok(None);
    };
    let Some((weight, more)) = next_number(more) else {
        return Ok(None);
    };
    let Some(list) = places_of(alloc, more)? else {
        return Ok(None);
    };
    let places = Numbers::from_vec(list);
    Ok(Some(CertificateLine::Tail { t, weight, places }))
}

/// The ascending numbers that are all words of a text.
pub fn places_of(alloc: Global, text: &[u8]) -> Result<Option<Vec<u64>>, AllocError>
    requires { IsBreak text.now }
    ensures found { IfOk result (λ read. IfSome read (λ places. text.now ≡ words places.items)) }
    ensures small { IfOk result (λ read. IfSome read (λ places. All IsNumber places.items)) }
    ensures ascending { IfOk result (λ read. IfSome read (λ places. AllPairs (λ k l. k < l) places.items)) }
    ensures none { IfOk result
        (λ read. IfNone read
        ((places : List ℕ) → All IsNumber places → AllPairs (λ k l. k < l) places → text.now ≡ words places → ⊥)) }
{
    let mut places = Vec::new(alloc);
    let mut rest = text;
    while !rest.is_empty() {
        let Some((place, after)) = next_number(rest) else {
            return Ok(None);
        };
        if !is_above(place, &places) {
            return Ok(None);
        }
        places.push(place)?;
        rest = after;
    }
    Ok(Some(places))
}

/// Whether a number is above the last of some ascending numbers, and so above each.
fn is_above(place: u64, places: &[u64]) -> bool
    requires { AllPairs (λ k l. k < l) places.now }
    ensures { IsTrue result ↔ All (λ k. k < place) places.now }
{
    match places.last() {
        Some(last) => *last < place,
        None => true,
    }
}
