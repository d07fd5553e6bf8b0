//! A certificate for changed bands.
ghost use Rattle.std.specs.Prelude.{◌≡◌, IfOk};
ghost use Rattle.lagrange_bound.specs.Goals.{risk_base, risk_value};
ghost use Rattle.certificate_tree.specs.Ranges.{IsInRange};
ghost use Rattle.certificate_tree.specs.Validity.{IsValid, BoundsPlans};
ghost use Rattle.band_rebound.specs.declared.rebounded.Rebounded.{Rebounded};
ghost use Rattle.band_rebound.specs.Rebinding.{IsNoLower};
ghost use Rattle.band_rebound.specs.Rebounds.{IsReboundOf};

use crate::{ReboundTree, Rebounded, rebound_by};
use certificate_tree::{
    Certificate, PriceLists, nodes_are_one_tree, tables_of, valid_bounds_plans,
};
use instance_model::Instance;
use lagrange_bound::{Prices, RiskGoal, worths_are_small};
use std::alloc::{AllocError, Global};

/// A copy of some price lists.
fn copy_of(alloc: Global, lists: &[Prices]) -> Result<Vec<Prices>, AllocError>
    ensures { IfOk result (λ copy. copy.items ≡ lists.now) }
{
    let mut copy = Vec::new(alloc);
    for prices in lists {
        copy.push(prices.clone()?)?;
    }
    Ok(copy)
}

/// The certificate with the same splits and lists that is valid for this instance.
///
/// Takes memory for a table and a copy of each price list, for the new nodes, for one box and a change for each level
/// of the tree, and for the plan and the score of a point.
pub fn rebound(alloc: Global, inst: &Instance, cert: &Certificate) -> Result<Rebounded, AllocError>
    requires { IsInRange inst.now cert.now }
    ensures rebound { IfOk result (IsReboundOf inst.now cert.now) }

    // No other answer is right.
    ensures only { IfOk result
        (λ rebounded. (other : Rebounded) → IsReboundOf inst.now cert.now other → other ≡ rebounded) }

    // It is in range and valid, so no feasible plan scores below its bound.
    ensures in_range { IfOk result (λ rebounded. IsInRange inst.now rebounded.cert) }
    ensures valid { IfOk result (λ rebounded. IsValid risk_base risk_value inst.now rebounded.cert) }
    ensures bounds { IfOk result (λ rebounded. BoundsPlans risk_value inst.now rebounded.cert.bound) }

    // Where the certificate is valid itself, the new bound is no lower.
    ensures no_lower { IfOk result (λ rebounded. IsValid risk_base risk_value inst.now cert.now
        → IsNoLower cert.now.bound rebounded.cert.bound) }
{
    inst.fits();
    nodes_are_one_tree();
    valid_bounds_plans(&RiskGoal);
    worths_are_small(&RiskGoal);
    let tables = tables_of(alloc, &RiskGoal, inst, cert.lists.as_slice())?;
    let tree = rebound_by(alloc, inst, cert.nodes.as_slice(), tables.as_slice())?;
    let lists = copy_of(alloc, cert.lists.as_slice())?;
    let ReboundTree {
        bound,
        nodes,
        kept,
        changed,
    } = tree;
    Ok(Rebounded {
        cert: Certificate {
            version: cert.version,
            bound,
            lists: PriceLists::from_vec(lists),
            nodes,
        },
        kept,
        changed,
    })
}
