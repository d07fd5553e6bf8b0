//! Whether interventions are a clique in a period.
ghost use Rattle.std.specs.Prelude.{◌≡◌, ℕ, ◌<◌, ◌≤◌, ◌↔◌, [], length, IsTrue, slice_index, slice_index_or};
ghost use Rattle.season_exclusion.specs.Broken.{naming_of};
ghost use Rattle.refined_prices.specs.Cliques.{Names, ExcludeEachOther, AreClique, ArePair};

use instance_model::{Exclusion, Instance};
use season_exclusion::Named;

/// Whether an exclusion names these two interventions, in either order.
fn names(exclusion: Exclusion, i: u32, j: u32) -> bool
    ensures { IsTrue result ↔ Names exclusion i j }
{
    (exclusion.first == i && exclusion.second == j)
        || (exclusion.first == j && exclusion.second == i)
}

/// Whether interventions `i` and `j` exclude each other in period `t`, by the exclusions that name `i`.
pub fn exclude_each_other(inst: &Instance, named: &Named, t: u32, i: u32, j: u32) -> bool
    requires named { named.now ≡ naming_of inst.now i }
    requires from { 1 ≤ t }
    requires to { t ≤ inst.now.periods }
    ensures { IsTrue result ↔ ExcludeEachOther inst.now t i j }
{
    for e in named.as_slice() {
        let exclusion = inst.exclusion(*e);
        if names(exclusion, i, j) && inst.in_season(exclusion.season, t) {
            return true;
        }
    }
    false
}

/// Whether the member at `k` stands before each later one, and excludes it in period `t`.
fn excludes_later(inst: &Instance, named: &Named, t: u32, members: &[u32], k: usize) -> bool
    requires place { k < length members.now }
    requires named { named.now ≡ naming_of inst.now (slice_index members.now k) }
    requires from { 1 ≤ t }
    requires to { t ≤ inst.now.periods }
    ensures { IsTrue result ↔ ((j : ℕ) → k < j → j < length members.now →
        ArePair inst.now t (slice_index members.now k) (slice_index members.now j)) }
{
    let i = members[k];
    for j in k + 1..members.len() {
        if members[j] <= i || !exclude_each_other(inst, named, t, i, members[j]) {
            return false;
        }
    }
    true
}

/// Whether interventions are a clique in period `t`: known ones, in ascending order, of which any two exclude each
/// other. Takes the exclusions that name each intervention.
pub fn is_clique(inst: &Instance, named: &[Named], t: u32, members: &[u32]) -> bool
    requires each { length named.now ≡ length inst.now.names }
    requires named { (i : ℕ) → i < length inst.now.names → slice_index_or named.now i [] ≡ naming_of inst.now i }
    requires from { 1 ≤ t }
    requires to { t ≤ inst.now.periods }
    ensures { IsTrue result ↔ AreClique inst.now t members.now }
{
    for k in 0..members.len() {
        let i = members[k];
        if i >= inst.interventions() || !excludes_later(inst, &named[i as usize], t, members, k) {
            return false;
        }
    }
    true
}
