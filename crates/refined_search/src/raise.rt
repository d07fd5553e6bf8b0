//! A certificate is made, or gone on with: the contract is `IsRaised`.
ghost use Rattle.std.specs.Prelude.{◌≡◌, ◌<◌, IfOk, IfSome, option_map};
ghost use Rattle.branch_search.specs.Best.{IsFeasiblePlan};
ghost use Rattle.refined_check.specs.certificate.Ranges.{IsRefinedInRange};
ghost use Rattle.refined_search.specs.Lists.{most_added};
ghost use Rattle.refined_search.specs.Raising.{within_range, IsRaised};

use crate::Raised;
use crate::begin::{begin, new_splits};
use crate::lists::lists_for;
use branch_search::{Part, go_on_part};
use certificate_tree::{
    Bound, nodes_are_one_tree, proved_bounds_plans, same_worths_prove_the_same, tables_bound_boxes,
};
use instance_model::Instance;
use lagrange_bound::{RiskGoal, worths_are_small};
use refined_check::{
    RefinedCertificate, RefinedLists, refined_lists_bound_boxes, refined_tables_of,
};
use std::alloc::{AllocError, Global};

/// The greatest number that a bound may be.
const MOST: i128 = 1_000_000_000_000_000_000_000_000_000_000_000_000;

/// A bound, cut to that number.
fn within_range(bound: Bound) -> Bound
    ensures { result ≡ within_range bound }
{
    match bound {
        Bound::NoPlan => Bound::NoPlan,
        Bound::Least(least) => Bound::Least(least.min(MOST)),
    }
}

/// How many lists may be added: none to a certificate whose leaves are in several parts.
fn most_added(cert: Option<&RefinedCertificate>, part: Part, most: usize) -> usize
    ensures { result ≡ most_added (option_map (λ old. old.now) cert.entry) part most }
{
    match cert {
        Some(_) => { if part.count > 1 { 0 } else { most } }
        None => most,
    }
}

/// Makes a certificate by refined price lists for the scores of all plans, or goes on with one. Given are a feasible
/// plan or none, a certificate in range or none, how many splits to make at most, of which leaves of its tree, and how
/// many lists to add at most.
///
/// Takes memory for a table of each list, for each node and each leaf that waits, and for the search of each new list.
pub fn raise_bound(
    alloc: Global,
    inst: &Instance,
    incumbent: Option<&[u32]>,
    cert: Option<&RefinedCertificate>,
    turns: u32,
    part: Part,
    most: usize,
) -> Result<Raised, AllocError>
    requires incumbent { IfSome incumbent (λ given. IsFeasiblePlan inst.now given.now) }
    requires cert { IfSome cert (λ old. IsRefinedInRange inst.now old.now) }
    requires part { part.number < part.count }
    ensures raised { IfOk result (IsRaised inst.now (option_map (λ given. given.now) incumbent.entry)
        (option_map (λ old. old.now) cert.entry) turns part most) }
{
    inst.fits();
    nodes_are_one_tree();
    same_worths_prove_the_same();
    proved_bounds_plans();
    tables_bound_boxes();
    refined_lists_bound_boxes();
    worths_are_small(&RiskGoal);
    let more = most_added(cert, part, most);
    let lists = lists_for(alloc, inst, incumbent, cert, turns, more)?;
    let tables = refined_tables_of(alloc, inst, lists.as_slice())?;
    let rows = tables.as_slice();
    let begun = begin(alloc, inst, cert, rows)?;
    let nodes = begun.nodes.as_slice();
    let end = go_on_part(alloc, &RiskGoal, inst, rows, nodes, incumbent, part, turns)?;
    let splits = new_splits(nodes, end.nodes.as_slice(), turns);
    Ok(Raised {
        cert: RefinedCertificate {
            bound: within_range(end.bound),
            lists: RefinedLists::from_vec(lists),
            nodes: end.nodes,
        },
        best: end.best,
        unfinished: end.unfinished,
        splits,
        kept: begun.kept,
        changed: begun.changed,
    })
}
