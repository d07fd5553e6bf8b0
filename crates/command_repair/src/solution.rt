//! What is answered to an instance and a plan.
ghost use Rattle.std.specs.Prelude.{◌≤◌, ℕ, IfOk};
ghost use Rattle.certificate_tree.specs.Ranges.{IsBoundInRange};
ghost use Rattle.local_search.specs.Openings.{IsWithoutStart};
ghost use Rattle.fewest_changes.specs.Openings.{IsKeptOpening};
ghost use Rattle.command_repair.specs.Made.{CanReport, IsReportOf, IsSolution};

use crate::report::{none_text, nothing_text, repaired_text};
use branch_search::empty_certificate;
use certificate_text::{Bound, Certificate, texts_are_short};
use command_answers::valid_is_audited;
use command_frame::Report;
use fewest_changes::{Repair, make_repair, opening_of};
use instance_model::{Instance, Starts};
use local_search::Opening;
use plan_changes::{ChangeGoal, changes};
use quantile_index::Row;
use std::alloc::{AllocError, Global};

/// What is said of an instance and a plan, and what the files are to hold.
#[derive(Drop)]
pub(crate) struct Solution {
    pub report: Report,
    pub certificate: Certificate,
    /// The plan, where one was found.
    pub plan: Option<Starts>,
}

/// Makes the solution of an instance and old starts.
pub(crate) fn solution_of<R: Row>(
    alloc: Global,
    inst: &Instance,
    old: &[Option<u32>],
    turns: u32,
) -> Result<Solution, AllocError>
    requires { turns ≤ 1_000_000 }
    ensures { IfOk result (IsSolution inst.now old.now turns) }
{
    match opening_of(alloc, inst, old)? {
        Opening::From(opening) => {
            solution_from::<R>(alloc, inst, old, opening.as_slice(), turns)
        }
        Opening::Without { i } => startless(alloc, inst, old, i),
    }
}

/// The solution that a repair from this opening makes.
fn solution_from<R: Row>(
    alloc: Global,
    inst: &Instance,
    old: &[Option<u32>],
    opening: &[u32],
    turns: u32,
) -> Result<Solution, AllocError>
    requires opening { IsKeptOpening inst.now old.now opening.now }
    requires turns { turns ≤ 1_000_000 }
    ensures { IfOk result (IsSolution inst.now old.now turns) }
{
    inst.fits();
    texts_are_short();
    let goal = ChangeGoal::make(alloc, old)?;
    valid_is_audited(inst, &goal);
    let made = make_repair::<R>(alloc, inst, old, opening, turns)?;
    let report = report_on(alloc, inst, old, &made.plan, &made.certificate)?;
    let Repair { certificate, plan } = made;
    Ok(Solution {
        report,
        certificate,
        plan,
    })
}

/// The report on a plan, if there is one, and a certificate.
fn report_on(
    alloc: Global,
    inst: &Instance,
    old: &[Option<u32>],
    plan: &Option<Starts>,
    certificate: &Certificate,
) -> Result<Report, AllocError>
    requires can { CanReport plan.now certificate.now.bound }
    requires bound { IsBoundInRange certificate.now.bound }
    ensures { IfOk result (IsReportOf inst.now old.now plan.now certificate.now.bound certificate.now) }
{
    match (plan, certificate.bound) {
        (Some(plan), Bound::Least(bound)) => Ok(Report {
            status: 0,
            text: repaired_text(
                alloc,
                inst,
                changes(old, plan.as_slice()),
                bound,
                certificate,
            )?,
        }),
        (None, Bound::Least(bound)) => Ok(Report {
            status: 9,
            text: nothing_text(alloc, inst, bound, certificate)?,
        }),
        (None, Bound::NoPlan) => Ok(Report {
            status: 10,
            text: none_text(alloc, inst, certificate)?,
        }),
        (Some(_), Bound::NoPlan) => unreachable!(),
    }
}

/// The solution where this intervention is the first without an allowed start.
fn startless(
    alloc: Global,
    inst: &Instance,
    old: &[Option<u32>],
    i: u32,
) -> Result<Solution, AllocError>
    requires { IsWithoutStart inst.now i }
    ensures { IfOk result (λ solution. (turns : ℕ) → IsSolution inst.now old.now turns solution) }
{
    inst.fits();
    texts_are_short();
    let goal = ChangeGoal::make(alloc, old)?;
    valid_is_audited(inst, &goal);
    let certificate = empty_certificate(alloc, i)?;
    let text = none_text(alloc, inst, &certificate)?;
    Ok(Solution {
        report: Report { status: 10, text },
        certificate,
        plan: None,
    })
}
