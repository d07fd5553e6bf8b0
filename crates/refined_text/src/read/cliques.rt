//! The cliques of a price list, as they are read.
ghost use Rattle.std.specs.Prelude.{◌≡◌, ◌+◌, ◌-◌, ◌<◌, ◌≤◌, ◌↔◌, map, AllPairs, All, IsTrue, IfOk, IfSome, IfNone};
ghost use Rattle.std.specs.Cmp.Lexicographic.{slice_cmp};
ghost use Rattle.std.specs.Ordering.{is_lt, nat_cmp};
ghost use Rattle.refined_prices.specs.Cliques.{CliqueBefore};
ghost use Rattle.refined_text.specs.grammar.Further.{clique_of_line, CliqueBelow};
ghost use Rattle.refined_text.specs.read.Taking.{AreNamed, IsSomeClique};

use certificate_text::counts_to;
use instance_model::Instance;
use lagrange_bound::Places;
use refined_prices::{Clique, is_priced_clique};
use season_exclusion::Named;
use std::alloc::{AllocError, Global};

/// The largest price.
const MOST_PRICE: u32 = 1_000_000_000;

/// Whether the clique of a line comes behind all of some that ascend.
pub fn follows_cliques(cliques: &[Clique], t: u64, members: &[u64]) -> bool
    requires { AllPairs CliqueBefore cliques.now }
    ensures { IsTrue result ↔ All (CliqueBelow t members.now) cliques.now }
{
    match cliques.last() {
        Some(last) => is_below(last, t, members),
        None => true,
    }
}

/// Whether a clique is below that of these numbers.
fn is_below(x: &Clique, t: u64, members: &[u64]) -> bool
    ensures { IsTrue result ↔ CliqueBelow t members.now x.now }
{
    let period = u64::from(x.period);
    period < t || (period == t && are_below(x.members.as_slice(), members))
}

/// Whether interventions, counted from 0, come before others, counted from 1, in the order of lists of numbers.
fn are_below(a: &[u32], b: &[u64]) -> bool
    ensures { IsTrue result ↔ IsTrue (is_lt (slice_cmp nat_cmp (map (λ i. i + 1) a.now) b.now)) }
{
    for k in 0..a.len() {
        if k >= b.len() {
            return false;
        }
        let i = u64::from(a[k]) + 1;
        if i != b[k] {
            return i < b[k];
        }
    }
    a.len() < b.len()
}

/// The clique of a line, if it has at least two members and is in range with its price.
pub fn clique_in(
    alloc: Global,
    inst: &Instance,
    named: &[Named],
    t: u64,
    v: u64,
    members: &[u64],
) -> Result<Option<Clique>, AllocError>
    requires named { AreNamed inst.now named.now }
    ensures some { IfOk result (λ read. IfSome read (λ x. x ≡ clique_of_line t v members.now)) }
    ensures fits { IfOk result (λ read. IfSome read (λ _. IsSomeClique inst.now t v members.now)) }
    ensures none { IfOk result (λ read. IfNone read (IsSomeClique inst.now t v members.now → ⊥)) }
{
    if members.len() < 2 || !counts_to(t, inst.periods()) || !counts_to(v, MOST_PRICE) {
        return Ok(None);
    }
    let Some(list) = interventions_in(alloc, inst.interventions(), members)? else {
        return Ok(None);
    };
    let clique = Clique {
        period: t as u32,
        value: v as u32,
        members: Places::from_vec(list),
    };
    if !is_priced_clique(inst, named, &clique) {
        return Ok(None);
    }
    Ok(Some(clique))
}

/// Interventions by their numbers in a line, if all of them are known.
fn interventions_in(
    alloc: Global,
    count: u32,
    numbers: &[u64],
) -> Result<Option<Vec<u32>>, AllocError>
    ensures some { IfOk result (λ read. IfSome read (λ list. list.items ≡ map (λ i. i - 1) numbers.now)) }
    ensures numbers { IfOk result (λ read. IfSome read (λ _. All (λ i. 1 ≤ i) numbers.now)) }
    ensures none { IfOk result (λ read. IfNone read
        (All (λ i. 1 ≤ i) numbers.now → All (λ i. i < count) (map (λ i. i - 1) numbers.now) → ⊥)) }
{
    let mut list = Vec::new(alloc);
    for number in numbers {
        if !counts_to(*number, count) {
            return Ok(None);
        }
        list.push((*number - 1) as u32)?;
    }
    Ok(Some(list))
}
