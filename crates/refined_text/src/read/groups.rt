//! The groups of a period, as they are read.
ghost use Rattle.std.specs.Prelude.{◌≡◌, ◌≢◌, ℕ, ◌≤◌, ◌↔◌, min, AllPairs, All, IsTrue, IfOk, IfSome, IfNone};
ghost use Rattle.std.specs.Prelude.{option_map};
ghost use Rattle.refined_prices.specs.Groups.{scenarios_in, weight_in, IsGroup, AreDisjoint};
ghost use Rattle.refined_check.specs.certificate.Orders.{first_scenario as first_of, GroupBefore};
ghost use Rattle.refined_text.specs.grammar.Further.{group_of, groups_of, with_group};
ghost use Rattle.refined_text.specs.read.Taking.{FitsBeside};

use crate::lines::LineMember;
use refined_prices::{Group, GroupTail, Groups, Member, is_group};
use std::alloc::{AllocError, Global};

/// The first scenario of a group: 0 where it has none.
fn first_scenario(group: &[Member]) -> u32
    ensures { result ≡ first_of group.now }
{
    match group.first() {
        Some(member) => member.scenario,
        None => 0,
    }
}

/// The first scenario of the group of a line: 0 where it has none.
fn first_in_line(members: &[LineMember]) -> u64
    ensures { result ≡ first_of (group_of members.now) }
{
    match members.first() {
        Some(member) => member.scenario,
        None => 0,
    }
}

/// Whether the group of a line comes behind all groups of a tail, which ascend.
pub fn follows_groups(tail: Option<&GroupTail>, members: &[LineMember]) -> bool
    requires { AllPairs GroupBefore (groups_of (option_map (λ t. t.now) tail)) }
    ensures { IsTrue result
        ↔ All (λ other. GroupBefore other (group_of members.now)) (groups_of (option_map (λ t. t.now) tail.entry)) }
{
    match tail {
        Some(tail) => follows_all(tail.groups.as_slice(), members),
        None => true,
    }
}

/// Whether it comes behind all groups of some that ascend.
fn follows_all(groups: &[Group], members: &[LineMember]) -> bool
    requires { AllPairs GroupBefore groups.now }
    ensures { IsTrue result ↔ All (λ other. GroupBefore other (group_of members.now)) groups.now }
{
    match groups.last() {
        Some(last) => u64::from(first_scenario(last.as_slice())) < first_in_line(members),
        None => true,
    }
}

/// The group of a line, if no number of it is too large for a period that has `n` scenarios.
pub fn members_in(
    alloc: Global,
    n: u32,
    members: &[LineMember],
) -> Result<Option<Vec<Member>>, AllocError>
    ensures some { IfOk result (λ read. IfSome read (λ group. group.items ≡ group_of members.now)) }
    ensures none { IfOk result
        (λ read. IfNone read ((total : ℕ) → IsGroup n total (group_of members.now) → ⊥)) }
{
    let mut group = Vec::new(alloc);
    for member in members {
        let Some(small) = member_in(n, *member) else {
            return Ok(None);
        };
        group.push(small)?;
    }
    Ok(Some(group))
}

/// The member that these numbers are, if none of them is too large.
fn member_in(n: u32, member: LineMember) -> Option<Member>
    ensures scenario { IfSome result (λ small. small.scenario ≡ member.scenario) }
    ensures weight { IfSome result (λ small. small.weight ≡ member.weight) }
    ensures none { IfNone result (member.scenario ≤ n → member.weight ≤ 1000 → ⊥) }
{
    if member.scenario > u64::from(n) || member.weight > 1000 {
        return None;
    }
    Some(Member {
        scenario: member.scenario as u32,
        weight: member.weight as u32,
    })
}

/// What the weights of a group add up to, or 1001 where that is more than 1000.
fn weight_to(group: &[Member]) -> u32
    ensures { result ≡ min (weight_in group.now) 1001 }
{
    let mut sum: u64 = 0;
    for member in group {
        sum += u64::from(member.weight);
        if sum > 1000 {
            return 1001;
        }
    }
    sum as u32
}

/// What the weights of a tail's groups add up to, if a group comes to them: the first group says it.
fn total_with(tail: Option<&GroupTail>, group: &[Member]) -> u32
    ensures exact { (with_group (option_map (λ t. t.now) tail.entry) group.now).weight ≤ 1000
        → result ≡ (with_group (option_map (λ t. t.now) tail.entry) group.now).weight }
    ensures large { result ≤ 1000 → result ≡ (with_group (option_map (λ t. t.now) tail.entry) group.now).weight }
{
    match tail {
        Some(tail) => tail.weight,
        None => weight_to(group),
    }
}

/// Whether a group is in range beside those of a tail, for a period that has `n` scenarios.
pub fn fits_beside(n: u32, tail: Option<&GroupTail>, group: &[Member]) -> bool
    ensures { IsTrue result ↔ FitsBeside n (option_map (λ t. t.now) tail.entry) group.now }
{
    let total = total_with(tail, group);
    1 <= total && total <= 1000 && is_group(n, total, group) && is_apart(tail, group)
}

/// Whether a group has no scenario with one of a tail's in common.
fn is_apart(tail: Option<&GroupTail>, group: &[Member]) -> bool
    ensures { IsTrue result
        ↔ All (λ other. AreDisjoint other group.now) (groups_of (option_map (λ t. t.now) tail.entry)) }
{
    match tail {
        Some(tail) => is_apart_from_all(tail.groups.as_slice(), group),
        None => true,
    }
}

fn is_apart_from_all(groups: &[Group], group: &[Member]) -> bool
    ensures { IsTrue result ↔ All (λ other. AreDisjoint other group.now) groups.now }
{
    for other in groups {
        if !are_disjoint(other.as_slice(), group) {
            return false;
        }
    }
    true
}

/// Whether no scenario is in both groups.
fn are_disjoint(a: &[Member], b: &[Member]) -> bool
    ensures { IsTrue result ↔ AreDisjoint a.now b.now }
{
    for member in a {
        if !lacks_scenario(b, member.scenario) {
            return false;
        }
    }
    true
}

/// Whether a scenario is in no member of a group.
fn lacks_scenario(group: &[Member], scenario: u32) -> bool
    ensures { IsTrue result ↔ All (λ k. scenario ≢ k) (scenarios_in group.now) }
{
    for member in group {
        if member.scenario == scenario {
            return false;
        }
    }
    true
}

/// A tail with a group more. Takes memory.
pub fn grown_tail(
    alloc: Global,
    tail: Option<GroupTail>,
    group: Group,
) -> Result<GroupTail, AllocError>
    requires small { (with_group tail group).weight ≤ 1000 }
    ensures { IfOk result (λ grown. grown ≡ with_group tail group) }
{
    let (weight, mut groups) = match tail {
        Some(tail) => (tail.weight, tail.groups.into_vec()),
        None => (weight_to(group.as_slice()), Vec::new(alloc)),
    };
    groups.push(group)?;
    Ok(GroupTail {
        weight,
        groups: Groups::from_vec(groups),
    })
}
