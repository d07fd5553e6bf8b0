//! Whether a refined price list is in the order in which certificates have its groups.
ghost use Rattle.std.specs.Prelude.{◌≡◌, ◌-◌, ◌<◌, ◌≤◌, ◌↔◌, ℕ, List, length, All, AllPairs, IsTrue, slice_index_or};
ghost use Rattle.refined_prices.specs.declared.member.Member.{Member};
ghost use Rattle.refined_check.specs.certificate.Orders.{first_scenario, GroupBefore, AreGroupsInOrder, IsInOrder};

use refined_prices::{Clique, Group, GroupTail, RefinedPrices};

/// The first scenario of a group: 0 where it has none.
fn first_scenario(group: &Group) -> u32
    ensures { result ≡ first_scenario group.now }
{
    match group.as_slice().first() {
        Some(member) => member.scenario,
        None => 0,
    }
}

/// Whether the group at `k` stands behind the one before it, where there is one.
fn group_follows(groups: &[Group], k: usize) -> bool
    requires { k < length groups.now }
    ensures { IsTrue result ↔ ((d : List Member) → 0 < k →
        GroupBefore (slice_index_or groups.now (k - 1) d) (slice_index_or groups.now k d)) }
{
    k == 0 || first_scenario(&groups[k - 1]) < first_scenario(&groups[k])
}

/// Whether groups ascend by their first scenarios.
fn groups_ascend(groups: &[Group]) -> bool
    ensures { IsTrue result ↔ AllPairs GroupBefore groups.now }
{
    for k in 0..groups.len() {
        if !group_follows(groups, k) {
            return false;
        }
    }
    true
}

/// Whether the groups of a tail ascend, where there is one.
fn is_tail_in_order(tail: &Option<GroupTail>) -> bool
    ensures { IsTrue result ↔ AreGroupsInOrder tail.now }
{
    match tail {
        Some(tail) => groups_ascend(tail.groups.as_slice()),
        None => true,
    }
}

/// Whether the groups of each tail ascend.
fn are_tails_in_order(tails: &[Option<GroupTail>]) -> bool
    ensures { IsTrue result ↔ All AreGroupsInOrder tails.now }
{
    for tail in tails {
        if !is_tail_in_order(tail) {
            return false;
        }
    }
    true
}

/// Whether each clique has two members or more.
fn have_two_members(cliques: &[Clique]) -> bool
    ensures { IsTrue result ↔ All (λ x. 2 ≤ length x.members) cliques.now }
{
    for clique in cliques {
        if clique.members.as_slice().len() < 2 {
            return false;
        }
    }
    true
}

/// Whether the groups of each tail ascend, and each clique has two members or more.
pub(crate) fn is_in_order(list: &RefinedPrices) -> bool
    ensures { IsTrue result ↔ IsInOrder list.now }
{
    are_tails_in_order(list.tails()) && have_two_members(list.cliques())
}
