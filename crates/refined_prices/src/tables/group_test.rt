//! Whether groups of scenarios are a tail of a period.
ghost use Rattle.std.specs.Prelude.{◌≡◌, ℕ, ◌+◌, ◌<◌, ◌≤◌, ◌↔◌, ◌||◌, false, length, All, AllPairs, IfOk, IsTrue};
ghost use Rattle.std.specs.Prelude.{slice_index_or};
ghost use Rattle.refined_prices.specs.Groups.{IsGroup, AreDisjoint, IsGroupTail};
ghost use Rattle.refined_prices.specs.tables.GroupTests.{IsNext, has_scenario, AreFree};

use crate::group::Group;
use crate::group_tail::GroupTail;
use crate::member::Member;
use std::alloc::{AllocError, Global};

/// Whether a member may stand in a group behind the member with scenario `last`.
fn is_next(n: u32, last: u32, member: Member) -> bool
    ensures { IsTrue result ↔ IsNext n last member }
{
    last < member.scenario && member.scenario <= n && 1 <= member.weight && member.weight <= 1000
}

/// Whether members are a group of a period that has `n` scenarios, with weights that add up to `total`.
pub fn is_group(n: u32, total: u32, group: &[Member]) -> bool
    ensures { IsTrue result ↔ IsGroup n total group.now }
{
    let mut last = 0;
    let mut sum: u64 = 0;
    for member in group {
        if !is_next(n, last, *member) {
            return false;
        }
        last = member.scenario;
        sum += member.weight as u64;
    }
    sum == total as u64
}

/// Whether no scenario of a group is taken.
fn are_free(taken: &[bool], group: &[Member]) -> bool
    requires { All (λ x. x.scenario < length taken.now) group.now }
    ensures { IsTrue result ↔ AreFree taken.now group.now }
{
    for member in group {
        if taken[member.scenario as usize] {
            return false;
        }
    }
    true
}

/// Takes the scenarios of a group.
fn take_scenarios(taken: &mut Vec<bool>, group: &[Member])
    requires { All (λ x. x.scenario < length taken.old.items) group.now }
    ensures each { length taken.new.items ≡ length taken.old.items }
    ensures taken { (k : ℕ) → k < length taken.old.items → slice_index_or taken.new.items k false
        ≡ (slice_index_or taken.old.items k false || has_scenario group.now k) }
{
    for member in group {
        taken[member.scenario as usize] = true;
    }
}

/// Takes the scenarios of members that are a group of which none is taken; whether they are.
fn take_group(n: u32, total: u32, taken: &mut Vec<bool>, group: &[Member]) -> bool
    requires each { length taken.old.items ≡ n + 1 }
    ensures each { length taken.new.items ≡ n + 1 }
    ensures value { IsTrue result ↔ (IsGroup n total group.now × AreFree taken.old.items group.now) }
    ensures taken { IsTrue result → (k : ℕ) → k ≤ n → slice_index_or taken.new.items k false
        ≡ (slice_index_or taken.old.items k false || has_scenario group.now k) }
{
    if !is_group(n, total, group) {
        return false;
    }
    if !are_free(taken.as_slice(), group) {
        return false;
    }
    take_scenarios(taken, group);
    true
}

/// Whether these are groups of a period that has `n` scenarios, with weights that add up to `total` in each, and no
/// scenario is in two of them.
fn are_groups(alloc: Global, n: u32, total: u32, groups: &[Group]) -> Result<bool, AllocError>
    ensures { IfOk result
        (λ yes. IsTrue yes ↔ (All (IsGroup n total) groups.now × AllPairs AreDisjoint groups.now)) }
{
    let mut taken = vec![in alloc; false; n as usize + 1]?;
    for group in groups {
        if !take_group(n, total, &mut taken, group.as_slice()) {
            return Ok(false);
        }
    }
    Ok(true)
}

/// Whether a tail by groups is in range for a period that has `n` scenarios, where the quantile has this rank. Goes
/// over each member once. Takes memory.
pub fn is_group_tail(alloc: Global, n: u32, rank: u32, tail: &GroupTail) -> Result<bool, AllocError>
    ensures { IfOk result (λ yes. IsTrue yes ↔ IsGroupTail n rank tail.now) }
{
    let groups = tail.groups.as_slice();
    if tail.weight < 1 || tail.weight > 1000 {
        return Ok(false);
    }
    if groups.len() + (rank as usize) < n as usize + 1 {
        return Ok(false);
    }
    are_groups(alloc, n, tail.weight, groups)
}
