//! The members of a group, which take memory.
ghost use Rattle.std.specs.Prelude.{◌≡◌, ◌<◌, ◌++◌, List, All, IfOk, IfSome, IfNone, IsTrue, ◌↔◌};
ghost use Rattle.std.specs.List.{AllPairs};
ghost use Rattle.certificate_lines.specs.Steps.{IsBreak};
ghost use Rattle.refined_text.specs.declared.lines.members.LineMember.{LineMember as Member};
ghost use Rattle.refined_text.specs.lines.Spelling.{member_word, member_words, IsMember, MemberBefore};

use crate::lines::LineMember;
use certificate_lines::next_number;
use std::alloc::{AllocError, Global};

/// The scenario and the weight that are the next two words, and what follows them.
fn next_member(text: &[u8]) -> Option<(LineMember, &[u8])>
    ensures found { IfSome result (λ read. text.now ≡ member_word read.0 ++ read.1.now) }
    ensures small { IfSome result (λ read. IsMember read.0) }
    ensures rest { IfSome result (λ read. IsBreak read.1.now) }
    ensures none { IfNone result
        ((x : Member) (rest : _) → IsMember x → IsBreak rest → text.now ≡ member_word x ++ rest → ⊥) }
{
    let (scenario, more) = next_number(text)?;
    let (weight, rest) = next_number(more)?;
    Some((LineMember { scenario, weight }, rest))
}

/// The members, by ascending scenario, that are all words of a text.
pub fn members_of(alloc: Global, text: &[u8]) -> Result<Option<Vec<LineMember>>, AllocError>
    requires { IsBreak text.now }
    ensures found { IfOk result (λ read. IfSome read (λ list. text.now ≡ member_words list.items)) }
    ensures small { IfOk result (λ read. IfSome read (λ list. All IsMember list.items)) }
    ensures ascending { IfOk result (λ read. IfSome read (λ list. AllPairs MemberBefore list.items)) }
    ensures none { IfOk result
        (λ read. IfNone read
        ((list : List Member) → All IsMember list → AllPairs MemberBefore list → text.now ≡ member_words list → ⊥)) }
{
    let mut list = Vec::new(alloc);
    let mut rest = text;
    while !rest.is_empty() {
        let Some((member, after)) = next_member(rest) else {
            return Ok(None);
        };
        if !is_above(member.scenario, &list) {
            return Ok(None);
        }
        list.push(member)?;
        rest = after;
    }
    Ok(Some(list))
}

/// Whether a scenario is above that of the last of some members by ascending scenario, and so above each.
fn is_above(scenario: u64, list: &[LineMember]) -> bool
    requires { AllPairs MemberBefore list.now }
    ensures { IsTrue result ↔ All (λ x. x.scenario < scenario) list.now }
{
    match list.last() {
        Some(last) => last.scenario < scenario,
        None => true,
    }
}
