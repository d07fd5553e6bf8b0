//! The lengths of the entries of refined price lists.
ghost use Rattle.std.specs.Prelude.{◌≡◌, ◌≤◌, [], ◌∷◌, length};
ghost use Rattle.refined_prices.specs.Offsets.{group_tail_at};
ghost use Rattle.refined_prices.specs.RefinedLists.{IsRefinedList};
ghost use Rattle.certificate_text.specs.Lengths.{counted_length};
ghost use Rattle.refined_text.specs.text.Text.{text_of_refined, group_lines, cap_lines, further_lines};
ghost use Rattle.refined_text.specs.text.Text.{refined_entry_lines};
ghost use Rattle.refined_text.specs.text.Steps.{pair_words, group_words, clique_words, group_text, group_texts};
ghost use Rattle.refined_text.specs.text.Steps.{offset_text};
ghost use Rattle.refined_text.specs.text.Steps.{offset_texts, clique_text, clique_texts};

use certificate_text::{entries_length, word_length};
use instance_model::Instance;
use refined_prices::{Clique, Group, Member, Offset, RefinedPrices};

/// All entries of a refined price list.
pub(crate) fn refined_entries_length(inst: &Instance, list: &RefinedPrices) -> u64
    requires { IsRefinedList inst.now list.now }
    ensures { result ≡ counted_length (text_of_refined (refined_entry_lines inst.now list.now)) }
{
    let plain = entries_length(inst, list.prices());
    let further = further_length(inst, list);
    plain.saturating_add(further)
}

/// What a refined price list has besides prices on limits and exclusions.
fn further_length(inst: &Instance, list: &RefinedPrices) -> u64
    requires { IsRefinedList inst.now list.now }
    ensures { result ≡ counted_length (text_of_refined (further_lines list.now)) }
{
    let cap = cap_length(list.capped());
    let tails = tails_length(inst, list);
    let offsets = offsets_length(list.offsets());
    let cliques = cliques_length(list.cliques());
    let rest = offsets.saturating_add(cliques);
    let more = tails.saturating_add(rest);
    cap.saturating_add(more)
}

/// The line that caps of lower limits count, where they do.
fn cap_length(capped: bool) -> u64
    ensures { result ≡ counted_length (text_of_refined (cap_lines capped)) }
{
    if capped { 4 } else { 0 }
}

/// All tails.
fn tails_length(inst: &Instance, list: &RefinedPrices) -> u64
    requires { IsRefinedList inst.now list.now }
    ensures { result ≡ counted_length (text_of_refined (group_lines 1 list.now.tails)) }
{
    let mut total: u64 = 0;
    for u in 0..inst.periods() {
        total = total.saturating_add(tail_length_at(inst, list, u + 1));
    }
    total
}

/// The tail of a period, where there is one.
fn tail_length_at(inst: &Instance, list: &RefinedPrices, t: u32) -> u64
    requires in_range { IsRefinedList inst.now list.now }
    requires from { 1 ≤ t }
    requires to { t ≤ inst.now.periods }
    ensures { result ≡ counted_length (text_of_refined (group_lines t (group_tail_at list.now.tails t ∷ []))) }
{
    match list.tail(inst, t) {
        Some(tail) => groups_length(t, tail.groups.as_slice()),
        None => 0,
    }
}

/// The groups of a period.
fn groups_length(t: u32, groups: &[Group]) -> u64
    ensures { result ≡ counted_length (group_texts t groups.now) }
{
    let mut total: u64 = 0;
    for group in groups {
        total = total.saturating_add(group_length(t, group.as_slice()));
    }
    total
}

/// The line of a group.
fn group_length(t: u32, group: &[Member]) -> u64
    ensures { result ≡ counted_length (group_text t group.now) }
{
    let front = word_length(u64::from(t)) + 5;
    let members = members_length(group);
    front.saturating_add(members)
}

/// The scenarios of a group with their weights.
fn members_length(group: &[Member]) -> u64
    ensures { result ≡ counted_length (group_words group.now) }
{
    let mut total: u64 = 0;
    for member in group {
        total = total.saturating_add(member_length(*member));
    }
    total
}

/// A scenario with its weight.
fn member_length(member: Member) -> u64
    ensures value { result ≡ length (pair_words member) }
    ensures small { result ≤ 130 }
{
    word_length(u64::from(member.scenario)) + word_length(u64::from(member.weight))
}

/// All offsets.
fn offsets_length(offsets: &[Offset]) -> u64
    ensures { result ≡ counted_length (offset_texts offsets.now) }
{
    let mut total: u64 = 0;
    for x in offsets {
        total = total.saturating_add(offset_length(*x));
    }
    total
}

/// The line of an offset.
fn offset_length(x: Offset) -> u64
    ensures value { result ≡ length (offset_text x) }
    ensures small { result ≤ 300 }
{
    let front = word_length(u64::from(x.period)) + word_length(u64::from(x.intervention) + 1);
    front + word_length(u64::from(x.group) + 1) + word_length(u64::from(x.value)) + 4
}

/// The prices of all cliques.
fn cliques_length(cliques: &[Clique]) -> u64
    ensures { result ≡ counted_length (clique_texts cliques.now) }
{
    let mut total: u64 = 0;
    for x in cliques {
        total = total.saturating_add(clique_length(x));
    }
    total
}

/// The line of the price of a clique.
fn clique_length(x: &Clique) -> u64
    ensures { result ≡ counted_length (clique_text x.now) }
{
    let words = word_length(u64::from(x.period)) + word_length(u64::from(x.value));
    let members = interventions_length(x.members.as_slice());
    (words + 4).saturating_add(members)
}

/// The interventions of a clique, which count from 1 in the text.
fn interventions_length(members: &[u32]) -> u64
    ensures { result ≡ counted_length (clique_words members.now) }
{
    let mut total: u64 = 0;
    for i in members {
        total = total.saturating_add(word_length(u64::from(*i) + 1));
    }
    total
}
