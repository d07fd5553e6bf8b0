//! What one period of a run adds to the base of a start, under a tail by groups and the offsets of its groups.
ghost use Rattle.std.specs.Prelude.{◌≡◌, ℕ, ◌+◌, ◌-◌, ◌*◌, ◌^◌, ◌<◌, ◌≤◌, pos, ◌+ℤ◌, ◌-ℤ◌, ◌*ℤ◌, [], All, Some, length};
ghost use Rattle.std.specs.Prelude.{IsTrue, option_map, unsigned_abs, slice_index, slice_index_or};
ghost use Rattle.fixed_num.specs.Sums.{total};
ghost use Rattle.instance_model.specs.RiskNumbers.{numbers_of};
ghost use Rattle.instance_model.specs.Tables.{is_allowed, in_run, scenarios_of, rank_of};
ghost use Rattle.refined_prices.specs.declared.member.Member.{Member};
ghost use Rattle.refined_prices.specs.Groups.{IsGroupTail, weight_in, weighted_sum, least_below};
ghost use Rattle.refined_prices.specs.GroupBases.{group_term_of};
ghost use Rattle.refined_prices.specs.Offsets.{group_count};
ghost use Rattle.refined_prices.specs.tables.GroupTerms.{risk_in, AreWeighable, AreOffsetsFrom, listed_part};

use crate::group::Group;
use crate::group_tail::GroupTail;
use crate::member::Member;
use fixed_num::{Steps, floor_div};
use instance_model::{Instance, RiskNumbers};
use std::sync::ledger::Ledger;

/// The sum of risks.
fn total_risk(risks: RiskNumbers<'_>) -> i128
    requires { length (numbers_of risks) ≤ 1024 }
    ensures value { result ≡ total (numbers_of risks.entry) }
    ensures small { unsigned_abs result ≤ 1024 * 10 ^ 20 }
{
    let mut sum: i128 = 0;
    for k in 0..risks.len() {
        sum += risks.at(k).count();
    }
    sum
}

/// A risk times a weight.
fn weigh(weight: u32, risk: i128) -> i128
    requires weight { weight ≤ 1000 }
    requires risk { unsigned_abs risk ≤ 10 ^ 20 }
    ensures value { result ≡ pos weight *ℤ risk }
    ensures small { unsigned_abs result ≤ weight * 10 ^ 20 }
{
    weight as i128 * risk
}

/// The sum of the risks of a group, each times its weight.
fn weighted_risk(risks: RiskNumbers<'_>, group: &[Member]) -> i128
    requires { AreWeighable (numbers_of risks) group.now }
    ensures value { result ≡ weighted_sum (risk_in (numbers_of risks.entry)) group.now }
    ensures small { unsigned_abs result ≤ 1000 * 10 ^ 20 }
{
    let mut sum: i128 = 0;
    for member in group {
        sum += weigh(
            member.weight,
            risks.at(member.scenario as usize - 1).count(),
        );
    }
    sum
}

/// The sum of a group under its offset.
fn group_sum(risks: RiskNumbers<'_>, group: &[Member], offset: u32) -> i128
    requires group { AreWeighable (numbers_of risks) group.now }
    requires offset { offset ≤ 1_000_000_000 }
    ensures value { result
        ≡ weighted_sum (risk_in (numbers_of risks.entry)) group.now +ℤ pos (1_000_000_000_000 * offset) }
    ensures small { unsigned_abs result ≤ 1010 * 10 ^ 20 }
{
    weighted_risk(risks, group) + 1_000_000_000_000 * offset as i128
}

/// The least sum of a group under its offset. The offsets stand in the order of the groups, from a place on.
fn least_sum(risks: RiskNumbers<'_>, groups: &[Group], offsets: &[u32], from: usize) -> i128
    requires some { 0 < length groups.now }
    requires groups { All (AreWeighable (numbers_of risks)) groups.now }
    requires offsets { AreOffsetsFrom (length groups.now) offsets.now from }
    ensures value { result ≡ least_below (length groups.now) (λ g.
        weighted_sum (risk_in (numbers_of risks.entry)) (slice_index_or groups.now g [])
        +ℤ pos (1_000_000_000_000 * slice_index offsets.now (from + g))) }
    ensures small { unsigned_abs result ≤ 1010 * 10 ^ 20 }
{
    let mut least = group_sum(risks, groups[0].as_slice(), offsets[from]);
    for g in 1..groups.len() {
        least = least.min(group_sum(risks, groups[g].as_slice(), offsets[from + g]));
    }
    least
}

/// How far `n` times the least is above the weighted sum.
fn gap_of(n: u32, weight: u32, least: i128, sum: i128) -> i128
    requires few { n ≤ 1024 }
    requires weight { weight ≤ 1000 }
    requires least { unsigned_abs least ≤ 1010 * 10 ^ 20 }
    requires sum { unsigned_abs sum ≤ 1024 * 10 ^ 20 }
    ensures value { result ≡ (pos n *ℤ least) -ℤ (pos weight *ℤ sum) }
    ensures small { unsigned_abs result ≤ 3_000_000 * 10 ^ 20 }
{
    n as i128 * least - weight as i128 * sum
}

/// The sum weighted by `alpha` in millionths, and a tail's part by the rest, a thousand times where the part counts
/// thousandths.
fn fraction_of(alpha: u32, sum: i128, part: i128) -> i128
    requires alpha { alpha ≤ 1_000_000 }
    requires sum { unsigned_abs sum ≤ 1024 * 10 ^ 20 }
    requires part { unsigned_abs part ≤ 3_000_000 * 10 ^ 20 }
    ensures value { result ≡ (pos (1000 * alpha) *ℤ sum) +ℤ (pos (1_000_000 - alpha) *ℤ part) }
    ensures small { unsigned_abs result ≤ 10 ^ 34 }
{
    (1000 * alpha) as i128 * sum + (1_000_000 - alpha) as i128 * part
}

/// What a tail adds for these risks, with their sum: 0 where there is none.
fn part_of(
    risks: RiskNumbers<'_>,
    tail: Option<&GroupTail>,
    offsets: &[u32],
    from: usize,
    n: u32,
    rank: u32,
    sum: i128,
) -> i128
    requires each { length (numbers_of risks) ≡ n }
    requires few { n ≤ 1024 }
    requires rank { rank ≤ n }
    requires tail { (some : _) → tail ≡ Some some → IsGroupTail n rank some.now }
    requires offsets { AreOffsetsFrom (group_count (option_map (λ tail. tail.now) tail)) offsets.now from }
    requires sum { sum ≡ total (numbers_of risks) }
    requires small { unsigned_abs sum ≤ 1024 * 10 ^ 20 }
    ensures value { result ≡ listed_part (numbers_of risks.entry) (λ g. slice_index offsets.now (from + g))
        (option_map (λ tail. tail.now) tail.entry) }
    ensures small { unsigned_abs result ≤ 3_000_000 * 10 ^ 20 }
{
    let Some(tail) = tail else {
        return 0;
    };
    let least = least_sum(risks, tail.groups.as_slice(), offsets, from);
    gap_of(n, tail.weight, least, sum)
}

/// The term of intervention `i` at start `s` in period `t`: one floor.
pub(crate) fn group_term<L: Ledger>(
    inst: &Instance,
    tail: Option<&GroupTail>,
    offsets: &[u32],
    from: usize,
    i: u32,
    s: u32,
    t: u32,
    steps: &mut Steps<L>,
) -> i128
    requires number { i < length inst.now.names }
    requires allowed { IsTrue (is_allowed inst.now i s) }
    requires running { IsTrue (in_run inst.now i s t) }
    requires from { 1 ≤ t }
    requires to { t ≤ inst.now.periods }
    requires tail { (some : _) → tail ≡ Some some →
        IsGroupTail (scenarios_of inst.now t) (rank_of inst.now t) some.now }
    requires offsets { AreOffsetsFrom (group_count (option_map (λ tail. tail.now) tail)) offsets.now from }
    ensures value { result ≡ group_term_of inst.now (option_map (λ tail. tail.now) tail.entry)
        (λ g. slice_index offsets.now (from + g)) i s t }
    ensures small { unsigned_abs result ≤ 10 ^ 34 }
{
    inst.fits();
    let n = inst.scenarios(t);
    let rank = inst.rank(t);
    let risks = inst.risks(i, s, t, steps);
    let sum = total_risk(risks);
    let part = part_of(risks, tail, offsets, from, n, rank, sum);
    let fraction = fraction_of(inst.alpha(), sum, part);
    floor_div(fraction, (1000 * n) as i128)
}
