//! What is made of an instance, a plan and a certificate.
ghost use Rattle.std.specs.Prelude.{◌≡◌, ◌≤◌, ◌<◌, ◌^◌, ◌++◌, ℤ, Option, length, option_map, IfOk, IfSome, OnOk};
ghost use Rattle.std.specs.Prelude.{unsigned_abs};
ghost use Rattle.instance_model.specs.Limits.{standard_limits};
ghost use Rattle.certificate_tree.specs.Ranges.{IsBoundInRange};
ghost use Rattle.refined_check.specs.certificate.Ranges.{IsRefinedInRange};
ghost use Rattle.command_frame.specs.Reports.{bound_or_none_line, gap_text};
ghost use Rattle.command_bound.specs.Bounding.{counts_text, bound_status};
ghost use Rattle.command_bound.specs.Made.{starts_of, IsMade};

use crate::incumbent::{Incumbent, incumbent_of};
use crate::within::raise_within;
use branch_search::Part;
use certificate_text::Bound;
use command_answers::valid_is_accepted;
use command_frame::{Report, Text, push_bound_or_none, push_gap, push_numbered, push_rounded};
use instance_model::{Instance, Limits};
use plan_text::Plan;
use refined_check::RefinedCertificate;
use refined_files::VersionedCertificate;
use refined_search::Raised;
use std::alloc::{AllocError, Global};

/// A certificate that is made, and what is said of it.
#[derive(Drop)]
pub(crate) struct Made {
    pub raised: Raised,
    pub report: Report,
}

/// The starts of a plan that is handed in, if one is.
fn handed_in(chosen: &Option<Incumbent>) -> Option<&[u32]>
    ensures { option_map (λ starts. starts.now) result ≡ starts_of chosen.now }
{
    match chosen {
        Some(incumbent) => Some(incumbent.starts.as_slice()),
        None => None,
    }
}

/// The score of a plan that is handed in, if one is.
fn score_in(chosen: &Option<Incumbent>) -> Option<i128>
    ensures { result ≡ option_map (λ x. x.score) chosen.now }
{
    match chosen {
        Some(incumbent) => Some(incumbent.score),
        None => None,
    }
}

/// The certificate that was given, if one was.
fn given_in(cert: &Option<VersionedCertificate>) -> Option<&RefinedCertificate>
    ensures { option_map (λ given. given.now) result ≡ cert.now }
{
    match cert {
        Some(cert) => Some(cert.as_refined()),
        None => None,
    }
}

/// Makes a certificate of an instance, a plan if one is given, and a certificate if one is, with so many turns for the
/// leaves of this part of its tree. Lists that would make its text longer than certificate files may be are left out.
pub(crate) fn make(
    alloc: Global,
    limits: &Limits,
    inst: &Instance,
    plan: &Option<Plan>,
    cert: &Option<VersionedCertificate>,
    turns: u32,
    part: Part,
) -> Result<Made, AllocError>
    requires bytes { limits.now.certificate_bytes ≤ standard_limits.certificate_bytes }
    requires plan { IfSome plan.now (λ p. length p ≡ length inst.now.names) }
    requires cert { IfSome cert.now (IsRefinedInRange inst.now) }
    requires part { part.number < part.count }
    ensures { IfOk result (IsMade limits.now inst.now plan.now cert.now turns part) }
{
    valid_is_accepted::<VersionedCertificate>(inst);
    let chosen = incumbent_of(alloc, inst, plan)?;
    let incumbent = handed_in(&chosen);
    let raised = raise_within(alloc, limits, inst, incumbent, given_in(cert), turns, part)?;
    let text = report_on(alloc, inst, score_in(&chosen), &raised)?;
    let status = status_of(raised.cert.bound);
    Ok(Made {
        raised,
        report: Report { status, text },
    })
}

/// 10 where the bound is none, and else 0.
fn status_of(bound: Bound) -> u8
    ensures { result ≡ bound_status bound }
{
    match bound {
        Bound::Least(_) => 0,
        Bound::NoPlan => 10,
    }
}

/// The report on a certificate, and on a plan of this score, if one is handed in.
fn report_on(
    alloc: Global,
    inst: &Instance,
    score: Option<i128>,
    raised: &Raised,
) -> Result<Text, AllocError>
    requires bound { IsBoundInRange raised.now.cert.bound }
    requires score { IfSome score (λ z. unsigned_abs z < 10 ^ 36) }
    ensures { IfOk result (λ text. text ≡ bound_or_none_line raised.now.cert.bound
        ++ (gap_text raised.now.cert.bound score ++ counts_text inst.now raised.now)) }
{
    let mut text = Text::new(alloc);
    push_bound_or_none(&mut text, raised.cert.bound)?;
    push_gap(&mut text, raised.cert.bound, score)?;
    push_counts(&mut text, inst, raised)?;
    Ok(text)
}

/// Adds the last lines.
fn push_counts(text: &mut Text, inst: &Instance, raised: &Raised) -> Result<(), AllocError>
    ensures { OnOk result (text.new ≡ text.old ++ counts_text inst.now raised.now) }
{
    push_numbered(text, "lists ", raised.cert.lists.as_slice().len() as u64)?;
    push_numbered(text, "splits ", raised.splits.into())?;
    push_numbered(text, "kept ", raised.kept)?;
    push_numbered(text, "changed ", raised.changed)?;
    push_rounded(text, inst.rounded())
}
