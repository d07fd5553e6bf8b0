//! The offsets of a price list, as they are read.
ghost use Rattle.std.specs.Prelude.{◌≡◌, ℕ, ◌-◌, ◌≤◌, ◌↔◌, length, AllPairs, All, IsTrue, IfSome, IfNone};
ghost use Rattle.refined_prices.specs.Offsets.{group_tail_at, group_count, IsOffset, OffsetBefore};
ghost use Rattle.refined_text.specs.grammar.Further.{offset_of_line, OffsetBelow};

use certificate_text::counts_to;
use instance_model::Instance;
use refined_prices::{GroupTail, Offset, groups_at};

/// The largest offset.
const MOST_OFFSET: u32 = 1_000_000_000;

/// Whether the offset of a line comes behind all of some that ascend.
pub fn follows_offsets(offsets: &[Offset], t: u64, i: u64, g: u64) -> bool
    requires { AllPairs OffsetBefore offsets.now }
    ensures { IsTrue result ↔ All (OffsetBelow t i g) offsets.now }
{
    match offsets.last() {
        Some(last) => is_below(*last, t, i, g),
        None => true,
    }
}

/// Whether an offset is below that of these numbers.
fn is_below(x: Offset, t: u64, i: u64, g: u64) -> bool
    ensures { IsTrue result ↔ OffsetBelow t i g x }
{
    let period = u64::from(x.period);
    let intervention = u64::from(x.intervention) + 1;
    let group = u64::from(x.group) + 1;
    period < t || (period == t && (intervention < i || (intervention == i && group < g)))
}

/// The offset of a line, if it is in range under these tails, of which none has many groups.
pub fn offset_in(
    inst: &Instance,
    tails: &[Option<GroupTail>],
    t: u64,
    i: u64,
    g: u64,
    v: u64,
) -> Option<Offset>
    requires each { length tails.now ≡ inst.now.periods }
    requires few { (u : ℕ) → 1 ≤ u → u ≤ inst.now.periods → group_count (group_tail_at tails.now u) ≤ 1025 }
    ensures some { IfSome result (λ x. x ≡ offset_of_line t i g v) }
    ensures numbers { IfSome result (λ _. (1 ≤ i) × (1 ≤ g)) }
    ensures in_range { IfSome result (IsOffset inst.now tails.now) }
    ensures none { IfNone result (1 ≤ i → 1 ≤ g → IsOffset inst.now tails.now (offset_of_line t i g v) → ⊥) }
{
    if !counts_to(t, inst.periods()) || !counts_to(i, inst.interventions()) {
        return None;
    }
    let groups = groups_at(tails, t as u32) as u32;
    if !counts_to(g, groups) || !counts_to(v, MOST_OFFSET) {
        return None;
    }
    Some(Offset {
        period: t as u32,
        intervention: (i - 1) as u32,
        group: (g - 1) as u32,
        value: v as u32,
    })
}
