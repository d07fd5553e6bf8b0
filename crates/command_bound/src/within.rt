//! A certificate with as many further lists as the limit of certificate files has room for.
ghost use Rattle.std.specs.Prelude.{◌≡◌, ◌<◌, ◌≤◌, ◌↔◌, length, option_map, IfOk, IfSome, IsTrue};
ghost use Rattle.instance_model.specs.Limits.{standard_limits};
ghost use Rattle.branch_search.specs.Best.{IsFeasiblePlan};
ghost use Rattle.refined_check.specs.certificate.Ranges.{IsRefinedInRange};
ghost use Rattle.refined_text.specs.text.Text.{refined_text};
ghost use Rattle.command_bound.specs.Made.{IsWithin};

use branch_search::Part;
use instance_model::{Instance, Limits};
use refined_check::RefinedCertificate;
use refined_search::{MOST_LISTS, Raised, raise_bound};
use refined_text::refined_text_length;
use std::alloc::{AllocError, Global};

/// Whether the text of a certificate is within the limit of certificate files.
fn fits(limits: &Limits, inst: &Instance, cert: &RefinedCertificate) -> bool
    requires bytes { limits.now.certificate_bytes ≤ standard_limits.certificate_bytes }
    requires in_range { IsRefinedInRange inst.now cert.now }
    ensures { IsTrue result ↔ length (refined_text inst.now cert.now) ≤ limits.now.certificate_bytes }
{
    refined_text_length(inst, cert) <= limits.certificate_bytes
}

/// How many further lists to try next, of a certificate whose text was too long: as many as the limit has room for, by
/// the mean length of the lists, but one at least.
fn fewer_lists(
    limits: &Limits,
    inst: &Instance,
    cert: &RefinedCertificate,
    old: usize,
    most: usize,
) -> usize
    requires in_range { IsRefinedInRange inst.now cert.now }
    requires some { 1 < most }
    ensures least { 1 ≤ result }
    ensures fewer { result < most }
{
    let length = refined_text_length(inst, cert).max(1);
    let count = cert.lists.as_slice().len() as u64;
    let room = count.saturating_mul(limits.certificate_bytes) / length;
    (room as usize).saturating_sub(old).min(most - 1).max(1)
}

/// How many lists a certificate has, if there is one.
fn list_count(cert: Option<&RefinedCertificate>) -> usize {
    match cert {
        Some(cert) => cert.lists.as_slice().len(),
        None => 0,
    }
}

/// Makes a certificate of a feasible plan or none and a certificate or none, with so many turns for the leaves of this
/// part of its tree. If the text is too long, another one is made with fewer further lists.
pub(crate) fn raise_within(
    alloc: Global,
    limits: &Limits,
    inst: &Instance,
    incumbent: Option<&[u32]>,
    cert: Option<&RefinedCertificate>,
    turns: u32,
    part: Part,
) -> Result<Raised, AllocError>
    requires bytes { limits.now.certificate_bytes ≤ standard_limits.certificate_bytes }
    requires incumbent { IfSome incumbent (λ given. IsFeasiblePlan inst.now given.now) }
    requires cert { IfSome cert (λ old. IsRefinedInRange inst.now old.now) }
    requires part { part.number < part.count }
    ensures { IfOk result (IsWithin limits.now inst.now (option_map (λ given. given.now) incumbent.entry)
        (option_map (λ old. old.now) cert.entry) turns part) }
{
    let old = list_count(cert);
    let mut most = MOST_LISTS;
    while most > 1 {
        let raised = raise_bound(alloc, inst, incumbent, cert, turns, part, most)?;
        if fits(limits, inst, &raised.cert) {
            return Ok(raised);
        }
        most = fewer_lists(limits, inst, &raised.cert, old, most);
    }
    raise_bound(alloc, inst, incumbent, cert, turns, part, most)
}
