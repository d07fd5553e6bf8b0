//! A certificate of version 1 or 2 is told as one by refined price lists.
ghost use Rattle.std.specs.Prelude.{◌≡◌, map, All, IfOk};
ghost use Rattle.lagrange_bound.specs.Prices.{IsPriceList};
ghost use Rattle.certificate_tree.specs.Ranges.{IsInRange};
ghost use Rattle.refined_check.specs.certificate.Ranges.{IsRefinedInRange};
ghost use Rattle.refined_check.specs.Singles.{refined_of};
ghost use Rattle.refined_text.specs.versions.Versions.{refined_certificate_of};

use crate::versions::laws::versions_stay_in_range;
use crate::versions::list::refined_list;
use certificate_tree::{Certificate, Nodes};
use instance_model::Instance;
use lagrange_bound::Prices;
use refined_check::{RefinedCertificate, RefinedLists};
use std::alloc::{AllocError, Global};

/// The certificate by refined price lists that a certificate of version 1 or 2 is told as: the same bound and nodes,
/// and each price list as a refined one. It is in range.
pub fn refined_certificate(
    alloc: Global,
    inst: &Instance,
    cert: &Certificate,
) -> Result<RefinedCertificate, AllocError>
    requires { IsInRange inst.now cert.now }
    ensures value { IfOk result (λ told. told ≡ refined_certificate_of inst.now cert.now) }
    ensures in_range { IfOk result (IsRefinedInRange inst.now) }
{
    versions_stay_in_range();
    let lists = refined_lists(alloc, inst, cert.lists.as_slice())?;
    let nodes = Vec::from_slice(alloc, cert.nodes.as_slice())?;
    Ok(RefinedCertificate {
        bound: cert.bound,
        lists,
        nodes: Nodes::from_vec(nodes),
    })
}

/// The refined lists of price lists.
fn refined_lists(
    alloc: Global,
    inst: &Instance,
    lists: &[Prices],
) -> Result<RefinedLists, AllocError>
    requires { All (IsPriceList inst.now) lists.now }
    ensures { IfOk result (λ refined. refined ≡ map (refined_of inst.now) lists.now) }
{
    let mut refined = Vec::new(alloc);
    for prices in lists {
        refined.push(refined_list(alloc, inst, prices)?)?;
    }
    Ok(RefinedLists::from_vec(refined))
}
