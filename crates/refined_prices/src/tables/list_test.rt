//! Whether a refined price list is in range for an instance.
ghost use Rattle.std.specs.Prelude.{◌≡◌, ℕ, ◌-◌, ◌<◌, ◌≤◌, ◌↔◌, [], length, AllPairs, IfOk, IsTrue, None, replicate};
ghost use Rattle.std.specs.Prelude.{slice_index_or};
ghost use Rattle.std.specs.List.{AllByRecursion};
ghost use Rattle.season_exclusion.specs.Broken.{naming_of};
ghost use Rattle.lagrange_bound.specs.Prices.{IsPriceList};
ghost use Rattle.refined_prices.specs.declared.offset.Offset.{Offset};
ghost use Rattle.refined_prices.specs.declared.clique.Clique.{Clique};
ghost use Rattle.refined_prices.specs.Offsets.{group_tail_at, group_count, IsOffset, OffsetBefore};
ghost use Rattle.refined_prices.specs.Cliques.{IsPricedClique, CliqueBefore};
ghost use Rattle.refined_prices.specs.RefinedLists.{IsRefinedList};
ghost use Rattle.refined_prices.specs.tables.ListTests.{IsTailAt};

use crate::clique::Clique;
use crate::group_tail::GroupTail;
use crate::offset::Offset;
use crate::refined::RefinedPrices;
use crate::tables::clique_test::is_clique;
use crate::tables::group_test::is_group_tail;
use instance_model::Instance;
use lagrange_bound::Prices;
use season_exclusion::{Named, named_lists};
use std::alloc::{AllocError, Global};

/// Whether a price list has no tail in any period.
fn has_no_tails(inst: &Instance, prices: &Prices) -> bool
    requires { IsPriceList inst.now prices.now }
    ensures { IsTrue result ↔ (prices.now.tails ≡ replicate inst.now.periods None) }
{
    for u in 0..inst.periods() {
        if prices.tail(inst, u + 1).is_some() {
            return false;
        }
    }
    true
}

/// Whether the tail of period `t`, where it has one, is in range.
fn is_tail_at(
    alloc: Global,
    inst: &Instance,
    tails: &[Option<GroupTail>],
    t: u32,
) -> Result<bool, AllocError>
    requires each { length tails.now ≡ inst.now.periods }
    requires from { 1 ≤ t }
    requires to { t ≤ inst.now.periods }
    ensures { IfOk result (λ yes. IsTrue yes ↔ IsTailAt inst.now tails.now t) }
{
    match &tails[t as usize - 1] {
        Some(tail) => is_group_tail(alloc, inst.scenarios(t), inst.rank(t), tail),
        None => Ok(true),
    }
}

/// Whether the tails of all periods are in range.
fn are_tails(
    alloc: Global,
    inst: &Instance,
    tails: &[Option<GroupTail>],
) -> Result<bool, AllocError>
    requires { length tails.now ≡ inst.now.periods }
    ensures { IfOk result
        (λ yes. IsTrue yes ↔ ((t : ℕ) → 1 ≤ t → t ≤ inst.now.periods → IsTailAt inst.now tails.now t)) }
{
    for u in 0..inst.periods() {
        if !is_tail_at(alloc, inst, tails, u + 1)? {
            return Ok(false);
        }
    }
    Ok(true)
}

/// How many groups the tail of period `t` has.
pub fn groups_at(tails: &[Option<GroupTail>], t: u32) -> usize
    requires from { 1 ≤ t }
    requires to { t ≤ length tails.now }
    ensures { result ≡ group_count (group_tail_at tails.now t) }
{
    match &tails[t as usize - 1] {
        Some(tail) => tail.groups.as_slice().len(),
        None => 0,
    }
}

/// Whether an offset is in range under these tails.
pub fn is_offset(inst: &Instance, tails: &[Option<GroupTail>], x: Offset) -> bool
    requires { length tails.now ≡ inst.now.periods }
    ensures { IsTrue result ↔ IsOffset inst.now tails.now x }
{
    if x.period < 1 || x.period > inst.periods() {
        return false;
    }
    x.intervention < inst.interventions()
        && (x.group as usize) < groups_at(tails, x.period)
        && 1 <= x.value
        && x.value <= 1_000_000_000
}

/// Whether an offset stands before another: by period, then intervention, then group.
fn offset_before(a: Offset, b: Offset) -> bool
    ensures { IsTrue result ↔ OffsetBefore a b }
{
    a.period < b.period
        || (a.period == b.period
            && (a.intervention < b.intervention
                || (a.intervention == b.intervention && a.group < b.group)))
}

/// Whether the offset at `k` stands behind the one before it, where there is one.
fn offset_follows(offsets: &[Offset], k: usize) -> bool
    requires { k < length offsets.now }
    ensures { IsTrue result ↔ ((d : Offset) → 0 < k →
        OffsetBefore (slice_index_or offsets.now (k - 1) d) (slice_index_or offsets.now k d)) }
{
    k == 0 || offset_before(offsets[k - 1], offsets[k])
}

/// Whether offsets are in range under these tails and in strict order.
fn are_offsets(inst: &Instance, tails: &[Option<GroupTail>], offsets: &[Offset]) -> bool
    requires { length tails.now ≡ inst.now.periods }
    ensures { IsTrue result
        ↔ (AllByRecursion (IsOffset inst.now tails.now) offsets.now × AllPairs OffsetBefore offsets.now) }
{
    for k in 0..offsets.len() {
        if !is_offset(inst, tails, offsets[k]) {
            return false;
        }
        if !offset_follows(offsets, k) {
            return false;
        }
    }
    true
}

/// Whether a clique and its price are in range.
pub fn is_priced_clique(inst: &Instance, named: &[Named], x: &Clique) -> bool
    requires each { length named.now ≡ length inst.now.names }
    requires named { (i : ℕ) → i < length inst.now.names → slice_index_or named.now i [] ≡ naming_of inst.now i }
    ensures { IsTrue result ↔ IsPricedClique inst.now x.now }
{
    if x.period < 1 || x.period > inst.periods() {
        return false;
    }
    1 <= x.value
        && x.value <= 1_000_000_000
        && is_clique(inst, named, x.period, x.members.as_slice())
}

/// Whether a clique stands before another: by period, then members.
fn clique_before(a: &Clique, b: &Clique) -> bool
    ensures { IsTrue result ↔ CliqueBefore a.now b.now }
{
    a.period < b.period || (a.period == b.period && a.members.as_slice() < b.members.as_slice())
}

/// Whether the clique at `k` stands behind the one before it, where there is one.
fn clique_follows(cliques: &[Clique], k: usize) -> bool
    requires { k < length cliques.now }
    ensures { IsTrue result ↔ ((d : Clique) → 0 < k →
        CliqueBefore (slice_index_or cliques.now (k - 1) d) (slice_index_or cliques.now k d)) }
{
    k == 0 || clique_before(&cliques[k - 1], &cliques[k])
}

/// Whether cliques and their prices are few, in range and in strict order.
fn are_cliques(inst: &Instance, named: &[Named], cliques: &[Clique]) -> bool
    requires each { length named.now ≡ length inst.now.names }
    requires named { (i : ℕ) → i < length inst.now.names → slice_index_or named.now i [] ≡ naming_of inst.now i }
    ensures { IsTrue result ↔ ((length cliques.now ≤ 4096)
        × (AllByRecursion (IsPricedClique inst.now) cliques.now × AllPairs CliqueBefore cliques.now)) }
{
    if cliques.len() > 4096 {
        return false;
    }
    for k in 0..cliques.len() {
        if !is_priced_clique(inst, named, &cliques[k]) {
            return false;
        }
        if !clique_follows(cliques, k) {
            return false;
        }
    }
    true
}

/// Whether a refined price list is in range for an instance, where its prices on limits and exclusions are. Goes over
/// each part of the list once, but over the exclusions of each two members of a clique. Takes memory.
pub fn is_refined_list(
    alloc: Global,
    inst: &Instance,
    list: &RefinedPrices,
) -> Result<bool, AllocError>
    requires { IsPriceList inst.now list.now.prices }
    ensures { IfOk result (λ yes. IsTrue yes ↔ IsRefinedList inst.now list.now) }
{
    let tails = list.tails();
    if !has_no_tails(inst, list.prices()) || tails.len() != inst.periods() as usize {
        return Ok(false);
    }
    if !are_tails(alloc, inst, tails)? {
        return Ok(false);
    }
    if !are_offsets(inst, tails, list.offsets()) {
        return Ok(false);
    }
    let named = named_lists(alloc, inst)?;
    Ok(are_cliques(inst, named.as_slice(), list.cliques()))
}
